//! Texts of rows that are given piece by piece.

ghost use Rattle.std.specs.Prelude.{◌≡◌, ◌^◌, ◌<◌, [], ℕ, List, take, slice_get, OnSome};
ghost use Rattle.std.specs.Option.{option_copied};
ghost use Rattle.std.specs.Cmp.Lexicographic.{slice_cmp};
ghost use Rattle.std.specs.Ordering.{nat_cmp};
ghost use Rattle.cc_names.specs.Pieces.{joined, joined_from};

use std::cmp::Ordering;

/// What gives rows texts, piece by piece.
pub trait Pieces {
    /// The pieces of a row's text, in their order.
    ghost pieces: { Self → ℕ → List (List ℕ) };

    /// A piece of a row's text by its number, where there is one.
    fn piece(&self, row: u32, at: usize) -> Option<&[u16]>
        ensures value { option_copied result ≡ slice_get (pieces self.now row) at }
        ensures few { OnSome result (at < 2 ^ 63) };

    /// How many of the first pieces of two rows are known to be the same, without a look at their units.
    fn same_front(&self, one: u32, other: u32) -> usize
        ensures { take result (pieces self.now one) ≡ take result (pieces self.now other) };
}

/// Goes on from the rest of a piece, and the number of the next one, to a piece that isn't at its end, where there is one.
fn within_piece<'a, P: Pieces>(
    texts: &'a P,
    row: u32,
    mut rest: &'a [u16],
    mut next: usize,
) -> (&'a [u16], usize)
    ensures same { joined_from (P.pieces texts.now row) result.0.now result.1 ≡ joined_from (P.pieces texts.now row) rest.now next }
    ensures ended { result.0.now ≡ [] → joined_from (P.pieces texts.now row) result.0.now result.1 ≡ [] }
{
    while rest.is_empty() {
        match texts.piece(row, next) {
            Some(piece) => {
                rest = piece;
                next += 1;
            }
            None => break,
        }
    }
    (rest, next)
}

/// Compares the texts of two rows by their units, without building them.
pub fn compare<P: Pieces>(texts: &P, one: u32, other: u32) -> Ordering
    ensures { result ≡ slice_cmp nat_cmp (joined (P.pieces texts.now one)) (joined (P.pieces texts.now other)) }
{
    let start = texts.same_front(one, other);
    let (mut here, mut next_here) = within_piece(texts, one, &[], start);
    let (mut there, mut next_there) = within_piece(texts, other, &[], start);
    while !here.is_empty() && !there.is_empty() {
        let count = here.len().min(there.len());
        let (front, rest_here) = here.split_at(count);
        let (other_front, rest_there) = there.split_at(count);
        let order = front.cmp(&other_front);
        if !order.is_eq() {
            return order;
        }
        (here, next_here) = within_piece(texts, one, rest_here, next_here);
        (there, next_there) = within_piece(texts, other, rest_there, next_there);
    }
    here.len().cmp(&there.len())
}
