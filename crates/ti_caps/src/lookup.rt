//! Finding capabilities by name, and by kind and position.

ghost use Rattle.std.specs.Prelude.{◌≡◌, ◌≢◌, ℕ, ◌<◌, ◌≤◌, ◌↔◌, Some, length, IfSome, IfNone, IsNone, ◌==◌};
ghost use Rattle.std.specs.List as List;
ghost use Rattle.ti_caps.specs.Names.{CountsAreStandard, NamesAreStandard};
ghost use Rattle.ti_caps.specs.Table.{row_at, name_at, place_in, kind_of, is_kind, count_of, position_of, place_from};
ghost use Rattle.ti_caps.specs.Table.{place_of_rank, place_ranked, rank_key, key_of, unpadded, NamesRise, EachHasRank};

use crate::table::{rank_at, row};
use crate::types::{CAPABILITIES, Cap, FLAGS, Kind, NUMBERS, STRINGS};

/// The place of the capability whose name has this rank in the byte order of names.
#[tactic(auto, using(crate::proofs::Tables::place_in_table))]
fn ranked_place(rank: usize) -> u16
    requires { rank < 497 }
    ensures value { result ≡ place_of_rank rank }
    ensures range { result < 497 }
{
    rank_at(rank)
}

/// The key of the name with this rank.
#[tactic(auto, unfolding(crate::specs::Table::rank_key))]
fn ranked_key(rank: usize) -> u64
    requires { rank < 497 }
    ensures { result ≡ rank_key rank }
{
    u64::from_be_bytes(*row(usize::from(ranked_place(rank))))
}

/// The key of a name; keys sort as names do.
fn name_key(name: &[u8]) -> u64
    requires { length name.now ≤ 8 }
    ensures { result ≡ key_of name.now }
{
    let mut bytes = [0u8; 8];
    bytes[..name.len()].copy_from_slice(name);
    u64::from_be_bytes(bytes)
}

/// The lowest rank whose key isn't below `key`, or 497.
#[tactic(auto, using(crate::proofs::Tables::rank_key_rises))]
fn lowest_rank(key: u64) -> usize
    ensures range { result ≤ 497 }
    ensures below { (rank : ℕ) → rank < result → rank_key rank < key }
    ensures above { (rank : ℕ) → result ≤ rank → rank < 497 → key ≤ rank_key rank }
{
    let mut low = 0;
    let mut high = CAPABILITIES;
    while low < high {
        let middle = low + (high - low) / 2;
        if ranked_key(middle) < key {
            low = middle + 1;
        } else {
            high = middle;
        }
    }
    low
}

/// The capability named `text`, if there is one.
pub fn by_name(text: &[u8]) -> Option<Cap>
    ensures value { result ≡ place_in text.now }
    ensures found { IfSome result (λ cap. name_at cap ≡ text.now) }
    ensures none { IfNone result ((place : ℕ) → place < 497 → name_at place ≢ text.now) }
{
    if text.len() > 8 {
        return None;
    }
    let rank = lowest_rank(name_key(text));
    if rank == CAPABILITIES {
        return None;
    }
    let cap = Cap::from_place(ranked_place(rank));
    if name(cap) == text { Some(cap) } else { None }
}

/// The place where the zeros of a row begin.
fn name_end(row: &[u8]) -> Option<usize>
    ensures { result ≡ List.position (λ byte. byte == 0) row.now }
{
    row.iter().position(|byte| *byte == 0)
}

/// The name in a row.
fn without_zeros(row: &[u8]) -> &[u8]
    ensures { result.now ≡ unpadded row.now }
{
    match name_end(row) {
        None => row,
        Some(end) => &row[..end],
    }
}

/// The name of the capability `cap`.
#[tactic(auto, using(crate::proofs::Tables::place_in_name), unfolding(crate::specs::Table::name_at))]
pub fn name(cap: Cap) -> &'static [u8]
    ensures value { result.now ≡ name_at cap }
    ensures back { place_in result.now ≡ Some cap }
{
    without_zeros(row(cap.place()))
}

/// Whether the capability `cap` is a flag, a number or a string.
#[tactic(auto, unfolding(crate::specs::Table::kind_of))]
pub fn kind(cap: Cap) -> Kind
    ensures { result ≡ kind_of cap }
{
    let place = cap.place();
    if place < FLAGS {
        Kind::Flag
    } else if place < FLAGS + NUMBERS {
        Kind::Number
    } else {
        Kind::String
    }
}

/// Whether the capability `cap` is of the kind `wanted`.
pub fn is_kind(cap: Cap, wanted: Kind) -> bool
    ensures { result ≡ is_kind (kind_of cap) wanted }
{
    kind(cap) == wanted
}

/// The position of the capability `cap` among those of its kind.
#[tactic(auto, unfolding(crate::specs::Table::kind_of, crate::specs::Table::position_of, crate::specs::Table::place_from))]
pub fn position(cap: Cap) -> usize
    ensures value { result ≡ position_of cap }
    ensures range { result < count_of (kind_of cap) }
    ensures back { place_from (kind_of cap) result ≡ Some cap }
{
    match kind(cap) {
        Kind::Flag => cap.place(),
        Kind::Number => cap.place() - FLAGS,
        Kind::String => cap.place() - FLAGS - NUMBERS,
    }
}

/// The capability of the kind `kind` at `position`, or `None` past the last one of that kind.
#[tactic(auto, unfolding(crate::specs::Table::kind_of, crate::specs::Table::position_of, crate::specs::Table::place_from))]
pub fn at(kind: Kind, position: usize) -> Option<Cap>
    ensures value { result ≡ place_from kind position }
    ensures kind { IfSome result (λ cap. kind_of cap ≡ kind) }
    ensures position { IfSome result (λ cap. position_of cap ≡ position) }
    ensures none { IsNone result ↔ (count_of kind ≤ position) }
{
    let (first, count) = match kind {
        Kind::Flag => (0, FLAGS),
        Kind::Number => (FLAGS, NUMBERS),
        Kind::String => (FLAGS + NUMBERS, STRINGS),
    };
    if position < count {
        Some(Cap::from_place((first + position) as u16))
    } else {
        None
    }
}

/// The capability whose name has this rank in the byte order of all names, or `None` past the last.
#[tactic(auto, unfolding(crate::specs::Table::place_ranked))]
pub fn at_rank(rank: usize) -> Option<Cap>
    ensures value { result ≡ place_ranked rank }
    ensures none { IsNone result ↔ (497 ≤ rank) }
{
    if rank < CAPABILITIES {
        Some(Cap::from_place(ranked_place(rank)))
    } else {
        None
    }
}

/// Law: the ranks are the byte order of the names, and each capability has one.
#[tactic(auto, using(crate::proofs::Tables::names_rise, crate::proofs::Tables::each_has_rank))]
pub fn ranks_order_names()
    ensures rising { NamesRise }
    ensures each { EachHasRank }
{}

/// Law: the names are those of terminfo(5), each at its position among the booleans, numbers or strings.
pub fn names_are_standard()
    ensures counts { CountsAreStandard }
    ensures names { NamesAreStandard }
{}
