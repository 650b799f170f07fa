// Lists of extents cut and put together.
ghost use Rattle.std.specs.Prelude.{◌≡◌, ◌<◌, ◌≤◌, ◌-◌, ◌++◌, [], ◌∷◌, length, take, drop, OnOk, OnErr, IfOk};
ghost use Rattle.fork_map.specs.Blocks.{blocks_of, AreNumbers};
ghost use Rattle.fork_map.specs.Cut.{front, back, join};

use crate::ExtentList;
use crate::place::{count_blocks, find_place, touches};
use hx_bytes::{Extent, OutOfMemory};
use std::alloc::Global;

impl ExtentList {
    /// Puts the blocks of a list in place of those from place `from` to place `to` less 1.
    pub fn replace(
        &self,
        alloc: Global,
        from: u32,
        to: u32,
        with: &ExtentList,
    ) -> Result<ExtentList, OutOfMemory>
        requires order { from ≤ to }
        requires inside { to ≤ length (blocks_of self.now) }
        requires numbers { AreNumbers (blocks_of self.now) }
        requires with_numbers { AreNumbers (blocks_of with.now) }
        ensures blocks { IfOk result (λ list. blocks_of list ≡ take from (blocks_of self.now) ++ blocks_of with.now ++ drop to (blocks_of self.now)) }
        // Extents are joined at the two seams alone.
        ensures extents { IfOk result (λ list. list ≡ join (join (front from self.now) with.now) (back to self.now)) }
    {
        let mut list = Vec::new(alloc);
        push_front(&mut list, self.as_slice(), from as u128)?;
        push_all(&mut list, with.as_slice())?;
        push_back(&mut list, self.as_slice(), to as u128)?;
        Ok(ExtentList::from_list(list))
    }

    /// Cuts so many blocks from the end, or all where there are no more, and gives what stays and what is cut.
    pub fn cut_tail(
        &self,
        alloc: Global,
        blocks: u32,
    ) -> Result<(ExtentList, ExtentList), OutOfMemory>
        requires numbers { AreNumbers (blocks_of self.now) }
        ensures blocks { IfOk result (λ parts. let stay = length (blocks_of self.now) - blocks in
            (blocks_of parts.0 ≡ take stay (blocks_of self.now)) × (blocks_of parts.1 ≡ drop stay (blocks_of self.now))) }
        ensures extents { IfOk result (λ parts. let stay = length (blocks_of self.now) - blocks in
            (parts.0 ≡ front stay self.now) × (parts.1 ≡ back stay self.now)) }
    {
        let items = self.as_slice();
        let stay = count_blocks(items).saturating_sub(blocks as u128);
        let mut kept = Vec::new(alloc);
        push_front(&mut kept, items, stay)?;
        let mut cut = Vec::new(alloc);
        push_back(&mut cut, items, stay)?;
        Ok((ExtentList::from_list(kept), ExtentList::from_list(cut)))
    }

    /// Adds the blocks of another list at the end.
    pub fn append(&self, alloc: Global, more: &ExtentList) -> Result<ExtentList, OutOfMemory>
        ensures blocks { IfOk result (λ list. blocks_of list ≡ blocks_of self.now ++ blocks_of more.now) }
        // Extents are joined at the seam alone.
        ensures extents { IfOk result (λ list. list ≡ join self.now more.now) }
    {
        let mut list = Vec::from_slice(alloc, self.as_slice())?;
        push_all(&mut list, more.as_slice())?;
        Ok(ExtentList::from_list(list))
    }
}

/// Adds the extents of the first `n` blocks.
fn push_front(list: &mut Vec<Extent>, items: &[Extent], n: u128) -> Result<(), OutOfMemory>
    ensures { OnOk result (list.new.items ≡ list.old.items ++ front n items.now) }
{
    let place = find_place(items, n);
    list.extend_from_slice(&items[..place.index])?;
    if place.index < items.len() && place.offset > 0 {
        list.push(Extent {
            start: items[place.index].start,
            count: place.offset,
        })?;
    }
    Ok(())
}

/// Joins the extents of the blocks from place `n` on.
fn push_back(list: &mut Vec<Extent>, items: &[Extent], n: u128) -> Result<(), OutOfMemory>
    requires { AreNumbers (blocks_of items.now) }
    ensures { OnOk result (list.new.items ≡ join list.old.items (back n items.now)) }
{
    let place = find_place(items, n);
    if place.index < items.len() {
        let extent = items[place.index];
        push_joined(
            list,
            Extent {
                start: extent.start + place.offset,
                count: extent.count - place.offset,
            },
        )?;
        list.extend_from_slice(&items[place.index + 1..])?;
    }
    Ok(())
}

/// Joins a list.
fn push_all(list: &mut Vec<Extent>, items: &[Extent]) -> Result<(), OutOfMemory>
    ensures { OnOk result (list.new.items ≡ join list.old.items items.now) }
{
    if let [first, rest @ ..] = items {
        push_joined(list, *first)?;
        list.extend_from_slice(rest)?;
    }
    Ok(())
}

/// Joins one extent.
fn push_joined(list: &mut Vec<Extent>, extent: Extent) -> Result<(), OutOfMemory>
    ensures { OnOk result (list.new.items ≡ join list.old.items (extent ∷ [])) }
{
    let len = list.len();
    if len > 0 {
        let last = list[len - 1];
        if touches(last, extent) {
            list[len - 1] = Extent {
                start: last.start,
                count: last.count + extent.count,
            };
            return Ok(());
        }
    }
    list.push(extent)?;
    Ok(())
}
