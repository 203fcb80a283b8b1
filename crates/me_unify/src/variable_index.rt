//! Where the nodes of variables stand: a table by space and variable for small numbers, and a map for others.
//!
//! A contract sees it as a function, `found_in`. Its memory is bounded by the variables that were noted and by
//! the size of the table, never by a number itself. What is forgotten leaves its room for later.
ghost use Rattle.std.specs.Prelude.{◌≡◌, ℕ, ◌*◌, ◌<◌, eqb, IfSome, OnOk, OnErr, Some, None, if◌then◌else◌};
ghost use Rattle.me_unify.specs.declared.variable_index.TheConstants.{SPACES, VARIABLES};
ghost use Rattle.me_unify.specs.Indexed.{slot_of, slot_at, found_in, IsNoted};

use indexmap::IndexMap;
use std::alloc::{AllocError, Global};

/// The spaces below this one have slots in the table.
const SPACES: u32 = 2048;

/// So many variables of a space have slots in the table.
const VARIABLES: u32 = 32;

/// Variables with the numbers of their nodes.
#[derive(Drop)]
pub(crate) struct VariableIndex {
    slots: Vec<Option<usize>>,
    others: IndexMap<(u32, u32), usize>,
}

/// The place of a variable in the table. None where its space or its number is too large.
fn slot(space: u32, var: u32) -> Option<usize>
    ensures value { result ≡ slot_of space var }
    ensures within { IfSome result (λ k. k < SPACES * VARIABLES) }
{
    if space < SPACES && var < VARIABLES {
        Some(space as usize * VARIABLES as usize + var as usize)
    } else {
        None
    }
}

/// Puts a number into a slot. The table grows where it ends before.
fn fill(slots: &mut Vec<Option<usize>>, k: usize, x: usize) -> Result<(), AllocError>
    requires within { k < SPACES * VARIABLES }
    ensures ok { OnOk result ((i : ℕ) → slot_at slots.new.items i ≡ (if eqb k i then Some x else slot_at slots.old.items i)) }
    ensures err { OnErr result (slots.new.items ≡ slots.old.items) }
{
    if slots.len() <= k {
        slots.resize(k + 1, None)?;
    }
    slots[k] = Some(x);
    Ok(())
}

impl VariableIndex {
    /// No variables. It takes no memory; later calls take theirs from `alloc`.
    pub(crate) fn new(alloc: Global) -> Self
        ensures { (v : ℕ × ℕ) → found_in result v ≡ None }
    {
        VariableIndex {
            slots: Vec::new(alloc),
            others: IndexMap::new(alloc),
        }
    }

    /// The node of a variable. None where none was noted.
    pub(crate) fn find(&self, space: u32, var: u32) -> Option<usize>
        ensures { result ≡ found_in self.now (space, var) }
    {
        match slot(space, var) {
            Some(k) => self.slots.get(k).copied().flatten(),
            None => self.others.get(&(space, var)).copied(),
        }
    }

    /// Notes the node of a variable. Where memory is out all is as before.
    pub(crate) fn note(&mut self, space: u32, var: u32, x: usize) -> Result<(), AllocError>
        ensures ok { OnOk result (IsNoted (space, var) (Some x) (found_in self.old) (found_in self.new)) }
        ensures err { OnErr result ((v : ℕ × ℕ) → found_in self.new v ≡ found_in self.old v) }
    {
        match slot(space, var) {
            Some(k) => fill(&mut self.slots, k, x),
            None => match self.others.insert((space, var), x) {
                Ok(_) => Ok(()),
                Err(_) => Err(AllocError),
            },
        }
    }

    /// Forgets the node of a variable. It takes no memory.
    pub(crate) fn forget(&mut self, space: u32, var: u32)
        ensures { IsNoted (space, var) None (found_in self.old) (found_in self.new) }
    {
        match slot(space, var) {
            Some(k) => {
                if k < self.slots.len() {
                    self.slots[k] = None;
                }
            }
            None => {
                self.others.swap_remove(&(space, var));
            }
        }
    }
}
