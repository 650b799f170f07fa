//! Names by numbers: the order of the numbers is that of the names.
use crate::stop::Stop;
use hx_bytes::Units;
use std::alloc::Global;

/// How long the names are.
#[derive(Clone, Copy, Debug, PartialEq, Eq)]
pub enum Length {
    /// One unit.
    Shortest,
    /// As many units as a name may have, of which the last tells the names apart.
    Longest,
    /// One unit more than the name before, which the name begins with.
    Growing,
}

/// Names of such a length.
#[derive(Clone, Copy, Debug)]
pub struct NameForm {
    pub length: Length,
    /// As many units as a name may have.
    pub longest: u16,
    /// From each last unit to the next, so that some lie above 32,767.
    pub step: u16,
}

impl NameForm {
    /// How many units stand in front of the last one.
    fn front(&self, number: u16) -> u16 {
        match self.length {
            Length::Shortest => 0,
            Length::Longest => self.longest.saturating_sub(1),
            Length::Growing => number,
        }
    }

    fn last(&self, number: u16) -> u16 {
        match self.length {
            Length::Growing => 0x61,
            Length::Shortest | Length::Longest => {
                number.wrapping_mul(self.step).wrapping_add(0x41)
            }
        }
    }

    /// The name with a number.
    pub fn name(&self, alloc: Global, number: u16) -> Result<Units, Stop> {
        let mut units = Units::new(alloc);
        for _unit in 0..self.front(number) {
            units.push(0x61)?;
        }
        units.push(self.last(number))?;
        Ok(units)
    }
}
