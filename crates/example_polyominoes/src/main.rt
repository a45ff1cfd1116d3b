//! Counts the polyominoes of up to six cells, and draws the pentominoes. Each free kind is kept as its canonical form,
//! so a set holds it once. It has as many fixed shapes as different images, and is two one-sided kinds where no flip
//! leaves it as it is.
#![tactic(auto)]

ghost use Rattle.std.specs.Prelude.{◌≡◌, ◌∷◌, []};
ghost use Rattle.grid_base.specs.declared.words.Symmetry.TheVariants.{AntiTranspose, FlipCols, FlipRows, Transpose};

use anyhow::Result;
use grid::{Grid, Move, Symmetry, reduce};
use grid_images::{canonicalize, compare, images, symmetries};
use std::alloc::Global;
use std::collections::HashSet;

// The cells of a shape are true.
type Shape = Grid<bool>;

// The symmetries that turn a shape over: a flip, and then no, one, two and three quarter turns.
fn flips() -> [Symmetry; 4]
    ensures { result ≡ FlipCols ∷ Transpose ∷ FlipRows ∷ AntiTranspose ∷ [] }
{
    let (flip, turn) = (Move::FlipCols, Move::RotateLeft);
    let half = reduce(&[flip, turn, turn]);
    let right = reduce(&[flip, turn, turn, turn]);
    [reduce(&[flip]), reduce(&[flip, turn]), half, right]
}

// Adds a row or a column of empty cells on each side.
fn padded(shape: &Shape) -> Result<Shape> {
    let mut padded = shape.clone()?;
    for _ in 0..4u8 {
        padded.prepend_rows(1)?;
        padded.rotate_left();
    }
    Ok(padded)
}

// Cuts one empty row or column off each side that has one.
fn trim(shape: &mut Shape) {
    for _ in 0..4u8 {
        if let Some(mut top) = shape.iter_rows().next() {
            if !top.any(|filled| *filled) {
                shape.delete_row(0);
            }
        }
        shape.rotate_left();
    }
}

// Adds the kind of a shape with one cell more.
fn add_kind(padded: &Shape, at: (usize, usize), kinds: &mut HashSet<Shape>) -> Result<()> {
    let mut larger = padded.clone()?;
    larger.set_at(at, true);
    trim(&mut larger);
    canonicalize(&mut larger);
    kinds.insert(larger)?;
    Ok(())
}

// Adds the kinds with one cell more than a shape.
fn grow(shape: &Shape, kinds: &mut HashSet<Shape>) -> Result<()> {
    let padded = padded(shape)?;
    for (at, filled) in padded.indexed_iter() {
        if !*filled && padded.neighbors4(at).any(|(_, near)| *near) {
            add_kind(&padded, at, kinds)?;
        }
    }
    Ok(())
}

fn print_counts<R: Print>(rt: &R, cells: u8, kinds: &HashSet<Shape>) -> Result<()> {
    let flips = flips();
    let (mut one_sided, mut fixed) = (0usize, 0usize);
    for kind in kinds {
        let same = symmetries(kind);
        let is_flipped = flips.iter().any(|flip| same.contains(*flip));
        one_sided = one_sided.saturating_add(if is_flipped { 1 } else { 2 });
        fixed = fixed.saturating_add(images(kind).len());
    }
    println!(rt; "{cells:5} {:5} {one_sided:10} {fixed:6}", kinds.len())?;
    Ok(())
}

// The kinds in the order of boards.
fn sorted(alloc: Global, kinds: &HashSet<Shape>) -> Result<Vec<Shape>> {
    let mut shapes = Vec::new(alloc);
    for kind in kinds {
        shapes.push(kind.clone()?)?;
    }
    shapes.sort_by(|shape, other| compare(shape, other))?;
    Ok(shapes)
}

fn print_row_of_each<R: Print + AllocGlobal>(rt: &R, shapes: &[Shape], row: usize) -> Result<()> {
    let mut text = String::new(rt.alloc());
    for shape in shapes {
        for col in 0..shape.cols() {
            let filled = shape.get(row, col) == Some(&true);
            text.push(if filled { '#' } else { ' ' })?;
        }
        text.push_str("   ")?;
    }
    println!(rt; "{}", text.as_str().trim_end())?;
    Ok(())
}

// Draws shapes of up to three rows, side by side.
fn print_all<R: Print + AllocGlobal>(rt: &R, kinds: &HashSet<Shape>) -> Result<()> {
    let shapes = sorted(rt.alloc(), kinds)?;
    for row in 0..3usize {
        print_row_of_each(rt, shapes.as_slice(), row)?;
    }
    Ok(())
}

fn run<R: Print + AllocGlobal>(rt: &R) -> Result<()> {
    println!(rt; "cells  free  one-sided  fixed")?;
    let mut kinds = HashSet::new(rt.alloc());
    kinds.insert(Grid::init(rt.alloc(), 1, 1, true)?)?;
    print_counts(rt, 1, &kinds)?;
    for cells in 2..=6u8 {
        let mut grown = HashSet::new(rt.alloc());
        for shape in &kinds {
            grow(shape, &mut grown)?;
        }
        kinds = grown;
        print_counts(rt, cells, &kinds)?;
        if cells == 5 {
            print_all(rt, &kinds)?;
        }
    }
    Ok(())
}

fn main(rt: HostRuntime) -> Result<()> {
    run(&rt)
}
