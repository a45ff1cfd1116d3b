//! The laws of the symmetries as public calls: the eight are a group under `then` and `inverse`, act as one on tables
//! of any cells, and are in `Symmetry::ALL`.
//!
//! A law is the clause of that name: it speaks of every table or every symmetry. The other clauses say what a call
//! returns.
ghost use Rattle.std.specs.Prelude.{◌≡◌, List, Some, slice_get};
ghost use Rattle.grid_base.specs.Prelude.{IsTable, act, IsThen, IsInverse, IsAssociativeAt, IsNeutralAt, IsUndoneAt};
ghost use Rattle.grid_base.specs.declared.words.Symmetry.{Symmetry};
ghost use Rattle.grid_base.specs.declared.words.Symmetry.TheVariants.{Identity};

use crate::Symmetry;

/// Returns three symmetries joined from the left, and joined from the right. The two are one symmetry.
pub fn then_is_associative(
    first: Symmetry,
    second: Symmetry,
    third: Symmetry,
) -> (Symmetry, Symmetry)
    ensures left { (a : Symmetry) → IsThen first second a → IsThen a third result.0 }
    ensures right { (b : Symmetry) → IsThen second third b → IsThen first b result.1 }
    ensures same { result.0 ≡ result.1 }
    ensures law { IsAssociativeAt first second third }
{
    (
        first.then(second).then(third),
        first.then(second.then(third)),
    )
}

/// Returns `Identity` joined before a symmetry, and after it. Both are the symmetry.
pub fn identity_is_neutral(symmetry: Symmetry) -> (Symmetry, Symmetry)
    ensures before { IsThen Identity symmetry result.0 }
    ensures after { IsThen symmetry Identity result.1 }
    ensures same_before { result.0 ≡ symmetry }
    ensures same_after { result.1 ≡ symmetry }
    ensures law { IsNeutralAt symmetry }
{
    (
        Symmetry::Identity.then(symmetry),
        symmetry.then(Symmetry::Identity),
    )
}

/// Returns a symmetry joined before its inverse, and after it. Both are `Identity`.
pub fn inverse_undoes(symmetry: Symmetry) -> (Symmetry, Symmetry)
    ensures before { (v : Symmetry) → IsInverse symmetry v → IsThen symmetry v result.0 }
    ensures after { (v : Symmetry) → IsInverse symmetry v → IsThen v symmetry result.1 }
    ensures same_before { result.0 ≡ Identity }
    ensures same_after { result.1 ≡ Identity }
    ensures law { IsUndoneAt symmetry }
{
    let inverse = symmetry.inverse();
    (symmetry.then(inverse), inverse.then(symmetry))
}

/// Returns `symmetry.then(next)`, which acts as the one and then the other on tables of cells of any type `T`.
pub fn then_acts<T>(symmetry: Symmetry, next: Symmetry) -> Symmetry
    ensures same { IsThen symmetry next result }
    ensures law { (v : Symmetry) → IsThen symmetry next v
        → (t : List (List T)) → IsTable t → act v t ≡ act next (act symmetry t) }
{
    symmetry.then(next)
}

/// Returns `done.inverse()`, which undoes it on tables of cells of any type `T`.
pub fn inverse_acts<T>(done: Symmetry) -> Symmetry
    ensures same { IsInverse done result }
    ensures law { (v : Symmetry)
        → IsInverse done v → (t : List (List T)) → IsTable t → act v (act done t) ≡ t }
{
    done.inverse()
}

/// Returns where [`Symmetry::ALL`] has a symmetry. Since it has eight places, it has each symmetry once.
pub fn stands_in_all(symmetry: Symmetry) -> usize
    ensures { slice_get Symmetry.ALL result ≡ Some symmetry }
{
    match symmetry {
        Symmetry::Identity => 0,
        Symmetry::FlipCols => 1,
        Symmetry::FlipRows => 2,
        Symmetry::RotateHalf => 3,
        Symmetry::Transpose => 4,
        Symmetry::RotateLeft => 5,
        Symmetry::RotateRight => 6,
        Symmetry::AntiTranspose => 7,
    }
}
