//! Names of files and of what a program declares.
ghost use Rattle.std.specs.Prelude.{◌≡◌, ◌==◌, ◌≤◌, ◌++◌, true, false, length, IfOk, OnOk, IsErrOf};
ghost use Rattle.std.specs.List.{list_all};
ghost use Rattle.std.specs.Cmp.Lexicographic.{pointwise};
ghost use Rattle.std.specs.Ordering.{on};
ghost use Rattle.std.specs.Cmp.Rules.{comparing};
ghost use Rattle.std.proofs.Common.{rules};
ghost use Rattle.up_base.specs.Names.{is_name, is_printable, lower_case};

use crate::Mem;
use std::alloc::Global;
use std::marker::Model;
use thiserror::Error;

/// A list of 1 to 512 printable ASCII characters (20 to 7E hex). Contracts see it as the list of its bytes.
#[derive(Drop)]
pub struct Name {
    // The bytes, and behind them the same with small letters for capital ones: one allocation for a name.
    both: Vec<u8>,
}

impl Model for Name {
    ghost use Rattle.std.specs.Prelude.{◌≡◌, ◌++◌, true, List, ℕ};
    ghost use Rattle.up_base.specs.Names.{is_name, lower_case, front_half};

    ghost Value = { List ℕ };

    ghost view = { λ n. front_half n.both.items };

    ghost invariant = { λ n. (is_name (front_half n.both.items) ≡ true) × (n.both.items ≡ front_half n.both.items ++ lower_case (front_half n.both.items)) };
}

/// Why bytes make no name.
#[derive(Debug, Drop, Error)]
pub enum NameFail {
    #[error("a name has 1 to 512 printable ASCII characters")]
    NotName,
    #[error("out of memory")]
    Mem,
}

impl Name {
    /// The name of these bytes.
    #[tactic(auto, using(crate::proofs::Halves::front_of_both))]
    pub fn make(alloc: Global, bytes: &[u8]) -> Result<Name, NameFail>
        ensures bytes { IfOk result (λ name. name ≡ bytes.now) }
        ensures name { OnOk result (is_name bytes.now ≡ true) }
        ensures not_name { IsErrOf result NameFail.NotName → is_name bytes.now ≡ false }
    {
        if !Name::is_name(bytes) {
            return Err(NameFail::NotName);
        }
        let Ok(both) = with_small_letters(alloc, bytes) else {
            return Err(NameFail::Mem);
        };
        Ok(Name { both })
    }

    /// The name of bytes that are known to make one.
    pub fn from_valid(alloc: Global, bytes: &[u8]) -> Result<Name, Mem>
        requires { is_name bytes.now ≡ true }
        ensures { IfOk result (λ name. name ≡ bytes.now) }
    {
        match Name::make(alloc, bytes) {
            Ok(name) => Ok(name),
            Err(NameFail::Mem) => Err(Mem),
            Err(NameFail::NotName) => unreachable!(),
        }
    }

    /// The same name again.
    pub fn copy(&self, alloc: Global) -> Result<Name, Mem>
        ensures { IfOk result (λ name. name ≡ self.now) }
    {
        Ok(Name {
            both: Vec::from_slice(alloc, &self.both)?,
        })
    }

    /// Whether these bytes make a name.
    pub fn is_name(bytes: &[u8]) -> bool
        ensures { result ≡ is_name bytes.now }
    {
        if bytes.is_empty() || bytes.len() > 512 {
            return false;
        }
        is_printable(bytes)
    }

    /// The name's bytes, as it is spelt.
    pub fn as_bytes(&self) -> &[u8]
        ensures bytes { result.now ≡ self.now }
        ensures name { is_name self.now ≡ true }
    {
        &self.both[..self.both.len() / 2]
    }

    /// The name's bytes with its capital letters made small.
    #[tactic(auto, using(crate::proofs::Halves::back_of_both))]
    pub fn lower_bytes(&self) -> &[u8]
        ensures { result.now ≡ lower_case self.now }
    {
        &self.both[self.both.len() / 2..]
    }
}

// The bytes, and behind them the same with small letters for capital ones.
fn with_small_letters(alloc: Global, bytes: &[u8]) -> Result<Vec<u8>, Mem>
    requires { length bytes.now ≤ 512 }
    ensures { IfOk result (λ both. both.items ≡ bytes.now ++ lower_case bytes.now) }
{
    let mut both = Vec::with_capacity(alloc, 2 * bytes.len())?;
    both.extend_from_slice(bytes)?;
    for c in bytes {
        both.push(c.to_ascii_lowercase())?;
    }
    Ok(both)
}

// Whether each byte is an ASCII character from 20 to 7E hex.
fn is_printable(bytes: &[u8]) -> bool
    ensures { result ≡ list_all is_printable bytes.now }
{
    bytes.iter().all(|c| 32 <= *c && *c <= 126)
}

impl PartialEq for Name {
    ghost eq = { on lower_case (pointwise ◌==◌) };

    ghost laws = { Prim.search (comparing, rules) };

    fn eq(&self, other: &Name) -> bool {
        self.lower_bytes() == other.lower_bytes()
    }
}

impl Eq for Name {
    ghost laws = { Prim.search (comparing, rules) };
}
