//! What a check finds, in order, the first hundred.
ghost use Rattle.std.specs.Prelude.{◌≡◌, ◌≤◌, [], length, Contains, IsTrue, MatchOption, OnErr, OnOk};
ghost use Rattle.fsck_list.specs.Order.{IsInOrder, IsPlace};
ghost use Rattle.fsck_list.specs.Kept.{IsListed, Keeps};
ghost use Rattle.fsck_list.specs.declared.finding.Finding.{Finding as Listed};

use crate::finding::Finding;
use hx_bytes::OutOfMemory;
use std::alloc::Global;
use std::marker::Model;

/// How many findings are kept at most.
pub const MOST: usize = 100;

/// Findings in order, none of them twice; of more than a hundred the first hundred.
#[derive(Drop)]
pub struct Findings {
    list: Vec<Finding>,
}

impl Model for Findings {
    ghost use Rattle.std.specs.Prelude.{List};
    ghost use Rattle.fsck_list.specs.declared.finding.Finding.{Finding};
    ghost use Rattle.fsck_list.specs.Kept.{IsKept};

    ghost Value = { List Finding };

    ghost view = { λ f. f.list.items };

    ghost invariant = { λ f. IsKept f.list.items };
}

impl Findings {
    /// No finding.
    pub fn new(alloc: Global) -> Findings
        ensures { result ≡ [] }
    {
        Findings {
            list: Vec::new(alloc),
        }
    }

    /// How many there are.
    pub fn len(&self) -> usize
        ensures count { result ≡ length self.now }
        ensures few { result ≤ 100 }
    {
        self.list.len()
    }

    /// All of them, in order.
    pub fn as_slice(&self) -> &[Finding]
        ensures items { result.now ≡ self.now }
        ensures order { IsInOrder result.now }
        ensures few { length result.now ≤ 100 }
    {
        self.list.as_slice()
    }

    /// Whether as many as are kept come before all findings of a rule from a place on, so that none of those would be kept.
    pub fn is_full_before(&self, rule: u8, place: u64) -> bool
        ensures { IsTrue result → (other : Listed) → other.rule ≡ rule → place ≤ other.place → IsListed self.now other }
    {
        if self.list.len() < MOST {
            return false;
        }
        let first = Finding {
            rule,
            place,
            found: 0,
            wanted: 0,
        };
        self.list[MOST - 1].is_before(&first)
    }

    /// Puts a finding in its place, and lets the last of more than a hundred go. One that stands there already isn't put again.
    pub fn push(&mut self, finding: Finding) -> Result<(), OutOfMemory>
        ensures kept { OnOk result (Keeps finding self.old self.new) }
        ensures same { OnErr result (self.new ≡ self.old) }
    {
        let Some(at) = place_of(&self.list, &finding) else {
            return Ok(());
        };
        if at >= MOST {
            return Ok(());
        }
        self.list.insert(at, finding)?;
        self.list.truncate(MOST);
        Ok(())
    }
}

/// The place where a finding belongs, or none where it stands there already.
fn place_of(list: &[Finding], finding: &Finding) -> Option<usize>
    requires { IsInOrder list.now }
    ensures { MatchOption result (Contains list.now finding.now) (λ at. IsPlace finding.now list.now at) }
{
    let mut at = list.len();
    while at > 0 {
        let other = &list[at - 1];
        if other.is_before(finding) {
            return Some(at);
        }
        if !finding.is_before(other) {
            return None;
        }
        at -= 1;
    }
    Some(0)
}
