//! A set of symmetries that takes no memory.
ghost use Rattle.std.specs.Prelude.{◌≡◌, ◌↔◌, ◌<◌, ◌≤◌, ◌++◌, ◌∷◌, [], ⊤, IsTrue, Contains, length};
ghost use Rattle.std.specs.Cmp.{nat_eq_equiv, on_equiv, on_per, partial_equiv_from_equiv};
ghost use Rattle.std.specs.Cmp.Lexicographic.{lists_equiv, lists_per};
ghost use Rattle.grid_images.specs.Prelude.{number, same_symmetries, symmetries};
ghost use Rattle.grid_base.specs.Iterators.{GivesRefs};

use grid::Symmetry;
use std::alloc::AllocError;
use std::marker::Model;
use std::{fmt, slice};

/// Some of the eight symmetries, each once, seen as the list of them in the order of [`Symmetry::ALL`].
#[derive(Drop)]
pub struct SymmetrySet {
    // The first `len` are in the set.
    members: [Symmetry; 8],
    len: usize,
}

impl Model for SymmetrySet {
    ghost use Rattle.std.specs.Prelude.{List, ◌≤◌, take};
    ghost use Rattle.grid_base.specs.declared.words.Symmetry.{Symmetry};

    ghost Value = { List Symmetry };

    ghost view = { λ set. take set.len set.members };

    ghost invariant = { λ set. set.len ≤ 8 };
}

impl SymmetrySet {
    pub(crate) fn new() -> SymmetrySet
        ensures { result ≡ [] }
    {
        SymmetrySet {
            members: Symmetry::ALL,
            len: 0,
        }
    }

    // Returns the set of all eight.
    pub(crate) fn all() -> SymmetrySet
        ensures { result ≡ symmetries }
    {
        SymmetrySet {
            members: Symmetry::ALL,
            len: 8,
        }
    }

    pub(crate) fn push(&mut self, symmetry: Symmetry)
        requires { length self.old < 8 }
        ensures { self.new ≡ self.old ++ symmetry ∷ [] }
    {
        self.members[self.len] = symmetry;
        self.len += 1;
    }

    /// Returns the symmetries, in the order of [`Symmetry::ALL`].
    pub fn as_slice(&self) -> &[Symmetry]
        ensures members { result.now ≡ self.now }
        ensures few { length result.now ≤ 8 }
    {
        &self.members[..self.len]
    }

    /// Returns an iterator over the symmetries, in the order of [`Symmetry::ALL`].
    pub fn iter(&self) -> slice::Iter<'_, Symmetry>
        ensures { GivesRefs self.now result }
    {
        self.as_slice().iter()
    }

    /// Returns whether there are none. What a call of this crate returns has some.
    pub fn is_empty(&self) -> bool
        ensures { IsTrue result ↔ (length self.now ≡ 0) }
    {
        self.len() == 0
    }

    /// Returns how many symmetries there are.
    pub fn len(&self) -> usize
        ensures len { result ≡ length self.now }
        ensures few { result ≤ 8 }
    {
        self.as_slice().len()
    }

    /// Returns whether a symmetry is in the set.
    pub fn contains(&self, symmetry: Symmetry) -> bool
        ensures { IsTrue result ↔ Contains self.now symmetry }
    {
        for member in self.as_slice() {
            if *member == symmetry {
                return true;
            }
        }
        false
    }
}

/// Iterates over the symmetries, as [`iter`](SymmetrySet::iter) does.
impl<'a> IntoIterator for &'a SymmetrySet {
    type Item = &'a Symmetry;

    type IntoIter = slice::Iter<'a, Symmetry>;

    ghost into_iter_gives = { λ set it. GivesRefs set.now it };

    fn into_iter(self) -> slice::Iter<'a, Symmetry> {
        self.iter()
    }
}

/// Takes no memory, and doesn't fail.
impl Clone for SymmetrySet {
    ghost is_clone = { λ set copy. copy ≡ set };

    ghost is_infallible = { λ _. ⊤ };

    fn clone(&self) -> Result<SymmetrySet, AllocError> {
        Ok(SymmetrySet {
            members: self.members,
            len: self.len,
        })
    }
}

/// `==` returns whether both have the same symmetries.
impl PartialEq for SymmetrySet {
    ghost eq = { same_symmetries };

    ghost laws = { lists_per (on_per number (partial_equiv_from_equiv nat_eq_equiv)) };

    fn eq(&self, other: &SymmetrySet) -> bool {
        self.as_slice() == other.as_slice()
    }
}

impl Eq for SymmetrySet {
    ghost laws = { lists_equiv (on_equiv number nat_eq_equiv) };
}

/// Writes the symmetries as a list.
///
///     symmetries([[1, 2], [1, 2]])   {:?}   "[Identity, FlipRows]"
impl fmt::Debug for SymmetrySet {
    fn fmt<W: fmt::Write>(&self, f: &mut fmt::Formatter<W>) -> fmt::Result {
        fmt::Debug::fmt(self.as_slice(), f)
    }
}
