//! The entries of a table, sorted by their names.
//!
//! Beside the place of an entry are eight bytes of its name, as one number. Where these differ, they decide, and a
//! comparison follows no pointer to a name.

ghost use Rattle.std.specs.Prelude.{◌≡◌, ◌≢◌, ◌<◌, ◌≤◌, true, length, take, drop, map};
ghost use Rattle.std.specs.List.{All, AllWithin, HoldsAt};
ghost use Rattle.std.specs.List.Sorted.{IsPermutation, IsSortedBy};
ghost use Rattle.std.specs.Ordering.{is_lt};
ghost use Rattle.m4_state.specs.ByteWords.{filled, IsRank, BeginsAlike};
ghost use Rattle.m4_state.specs.Table.{byte_order};
ghost use Rattle.m4_state.specs.Entries.{name_at};

use crate::entries::Entries;
use crate::words::{WORD, are_equal, word_at};
use std::cmp::Ordering;

/// Fewer names than these are compared as they are.
const FEW: usize = 6;

/// An entry of a table: its place, and eight bytes of its name as a number.
#[derive(Clone, Copy, Drop)]
pub(crate) struct Ranked {
    rank: u64,
    pub(crate) place: usize,
}

impl Ranked {
    /// Takes the place of an entry, whose name is not looked at yet.
    pub(crate) fn new(place: usize) -> Ranked
        ensures { result.place ≡ place }
    {
        Ranked { rank: 0, place }
    }
}

/// Sorts entries by their names: by eight bytes after those that all of them begin with, and then each run of those
/// that have the same eight. After `depth` such turns names are compared as they are.
pub(crate) fn sort_by_names(entries: &Entries, run: &mut [Ranked], depth: u32)
    ensures permutation { IsPermutation (map (λ r. r.place) run.old) (map (λ r. r.place) run.new) }
    ensures sorted { IsSortedBy (λ x y. is_lt (byte_order (name_at entries.now.entries x.place)
        (name_at entries.now.entries y.place))) run.new }
{
    if run.len() < FEW || depth == 0 {
        run.sort_unstable_by(|a, b| order_at(entries, a, b));
        return;
    }
    // The names of a canonical frozen file are in order already.
    if are_sorted(entries, run) {
        return;
    }
    let first = name_of(entries, &run[0]);
    let front = common_front(entries, first, run);
    rank_each(entries, run, front);
    run.sort_unstable_by(|a, b| a.rank.cmp(&b.rank));
    let mut at = 0;
    while at < run.len() {
        let end = run_end(run, at + 1, run[at].rank);
        if end - at > 1 {
            sort_by_names(entries, &mut run[at..end], depth - 1);
        }
        at = end;
    }
}

/// Returns whether entries are sorted by their names.
fn are_sorted(entries: &Entries, run: &[Ranked]) -> bool
    ensures { result ≡ true → IsSortedBy (λ x y. is_lt (byte_order (name_at entries.now.entries x.place)
        (name_at entries.now.entries y.place))) run.now }
{
    let Some(first) = run.first() else {
        return true;
    };
    let mut last = rank_of(name_of(entries, first), 0);
    let mut k = 1;
    while k < run.len() {
        let rank = rank_of(name_of(entries, &run[k]), 0);
        if rank < last || rank == last && order_at(entries, &run[k], &run[k - 1]).is_lt() {
            return false;
        }
        last = rank;
        k += 1;
    }
    true
}

/// Returns where the elements of this rank end.
#[inline(always)]
fn run_end(run: &[Ranked], from: usize, rank: u64) -> usize
    requires within { from ≤ length run.now }
    ensures within { result ≤ length run.now }
    ensures after { from ≤ result }
    ensures same { AllWithin (λ r. r.rank ≡ rank) run.now from result }
    ensures next { result < length run.now → HoldsAt (λ r. r.rank ≢ rank) run.now result }
{
    let mut end = from;
    while end < run.len() {
        if run[end].rank != rank {
            return end;
        }
        end += 1;
    }
    end
}

/// Returns the name of an entry.
#[inline(always)]
fn name_of<'a>(entries: &'a Entries, ranked: &Ranked) -> &'a [u8]
    ensures { result.now ≡ name_at entries.now.entries ranked.now.place }
{
    match entries.as_slice().get_index(ranked.place) {
        Some((name, _)) => name.as_slice(),
        None => &[],
    }
}

/// Ranks each name by the bytes after its first `from`.
fn rank_each(entries: &Entries, run: &mut [Ranked], from: usize)
    ensures places { map (λ r. r.place) run.new ≡ map (λ r. r.place) run.old }
    ensures ranks { All (λ r. IsRank (drop from (name_at entries.now.entries r.place)) r.rank) run.new }
{
    let mut k = 0;
    while k < run.len() {
        let place = run[k].place;
        let rank = rank_of(name_of(entries, &run[k]), from);
        run[k] = Ranked { rank, place };
        k += 1;
    }
}

/// Returns how many bytes of the first name all the names begin with.
fn common_front(entries: &Entries, first: &[u8], run: &[Ranked]) -> usize
    ensures { All (λ r. BeginsAlike result first.now (name_at entries.now.entries r.place)) run.now }
{
    let mut front = first.len();
    let mut k = 0;
    while k < run.len() && front > 0 {
        front = front_of(first, front, name_of(entries, &run[k]));
        k += 1;
    }
    front
}

/// Returns how many of the first `most` bytes of a name another one begins with.
#[inline(always)]
fn front_of(a: &[u8], most: usize, b: &[u8]) -> usize
    requires most { most ≤ length a.now }
    ensures most { result ≤ most }
    ensures alike { BeginsAlike result a.now b.now }
{
    if most <= b.len() && are_equal(a.split_at(most).0, b.split_at(most).0) {
        most
    } else {
        alike_up_to(a, most, b)
    }
}

/// Returns the same, byte by byte.
#[inline(never)]
fn alike_up_to(a: &[u8], most: usize, b: &[u8]) -> usize
    requires most { most ≤ length a.now }
    ensures most { result ≤ most }
    ensures alike { BeginsAlike result a.now b.now }
{
    let mut k = 0;
    while k < most && k < b.len() && a[k] == b[k] {
        k += 1;
    }
    k
}

/// Returns the byte order of the names of two entries.
fn order_at(entries: &Entries, a: &Ranked, b: &Ranked) -> Ordering
    ensures { result ≡ byte_order (name_at entries.now.entries a.now.place) (name_at entries.now.entries b.now.place) }
{
    order_of(name_of(entries, a), name_of(entries, b))
}

/// Returns the byte order of two names. Eight bytes are compared at once. The last eight may be so twice.
#[inline(never)]
fn order_of(a: &[u8], b: &[u8]) -> Ordering
    ensures { result ≡ byte_order a.now b.now }
{
    let both = a.len().min(b.len());
    if both < WORD {
        return a.cmp(b);
    }
    let last = both - WORD;
    let mut at = 0;
    while at < last {
        let (x, y) = (word_at(a, at), word_at(b, at));
        if x != y {
            return x.cmp(&y);
        }
        at += WORD;
    }
    let (x, y) = (word_at(a, last), word_at(b, last));
    if x != y {
        return x.cmp(&y);
    }
    a.len().cmp(&b.len())
}

/// Returns the eight bytes after the first `from` as a number, and zeros where there are none.
#[inline(always)]
fn rank_of(name: &[u8], from: usize) -> u64
    ensures { IsRank (drop from name.now) result }
{
    let rest = name.split_at(from.min(name.len())).1;
    if rest.len() < WORD {
        word_at(&filled(rest), 0)
    } else {
        word_at(rest, 0)
    }
}

/// Returns the first eight bytes, and zeros where there are none.
#[inline(always)]
fn filled(bytes: &[u8]) -> [u8; WORD]
    ensures { result ≡ filled 8 bytes.now }
{
    let len = bytes.len().min(WORD);
    let mut front = [0; WORD];
    front[..len].copy_from_slice(&bytes[..len]);
    front
}
