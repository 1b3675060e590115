// The losses or adduct items of an annotation, as many as there may be, in preferred order. Document 01, "One table, several spellings".
#![tactic(auto)]

ghost use Rattle.std.specs.Prelude.{◌≡◌, ◌-◌, ◌++◌, length, take, drop};
ghost use Rattle.rules.specs.Limits.{max_losses};
ghost use Rattle.rules.specs.Preferred.{rank};
ghost use Rattle.sort_slots.specs.declared.Slot.{Slot};
ghost use Rattle.sort_slots.specs.Slots.{slot_le, no_slots, with_slot};
ghost use Rattle.sort_slots.specs.Steps.{TextsBefore};

use changes::{Content, Sign};
use limits::MAX_LOSSES;
use slices::part;
use std::cmp::Ordering;
use std::marker::Model;
use std::mem::swap;

// A loss or an adduct item. Its text, which stands after sign and count, is keys[key .. key + len] of the buffer that is lent beside it.
// Content and start are the caller's, and are carried along.
#[derive(Clone, Copy, Default)]
pub struct Slot {
    pub sign: Sign,
    pub count: u32,
    pub content: Content,
    pub start: usize,
    pub key: usize,
    pub len: usize,
}

// The rank of a byte: `[` comes before all others.
fn ranked(b: u8) -> u16
    ensures { result ≡ rank b }
{
    if b == b'[' { 1 } else { u16::from(b) + 2 }
}

// Whether the one text comes before the other; `same` is the answer for two equal texts.
fn texts_before(a: &[u8], b: &[u8], same: bool) -> bool
    ensures { TextsBefore a.now b.now same result }
{
    let ranks = a.iter().map(|&b| ranked(b));
    match ranks.cmp(b.iter().map(|&b| ranked(b))) {
        Ordering::Less => true,
        Ordering::Equal => same,
        Ordering::Greater => false,
    }
}

// Whether x comes before y, or is its equal: by the texts, then by the signs, then by the counts.
pub fn comes_before(keys: &[u8], x: Slot, y: Slot) -> bool
    ensures { result ≡ slot_le keys.now x y }
{
    let a = part(keys, x.key, x.len);
    let b = part(keys, y.key, y.len);
    let same = x.sign.cmp(&y.sign).then(x.count.cmp(&y.count)).is_le();
    texts_before(a, b, same)
}

// The last slot comes before the others, each of which moves on by one. No `rotate_right`: it calls `memmove`, which the archive for C would need
// from outside.
fn last_first(slots: &mut [Slot])
    ensures len { length slots.new ≡ length slots.old }
    ensures after { slots.new ≡ drop (length slots.old - 1) slots.old ++ take (length slots.old - 1) slots.old }
{
    let Some(&last) = slots.last() else {
        return;
    };
    let mut carried = last;
    for slot in slots {
        swap(slot, &mut carried);
    }
}

// The first n of the slots are held, the others blank; there are as many as there may be losses, and of adduct items there may be fewer.
#[derive(Clone, Copy)]
pub struct Slots {
    n: usize,
    at: [Slot; MAX_LOSSES],
}

impl Model for Slots {
    ghost use Rattle.std.specs.Prelude.{List, ◌++◌, length, take};
    ghost use Rattle.sort_slots.specs.declared.Slot.{Slot};
    ghost use Rattle.sort_slots.specs.Blanks.{blank_behind, FirstHeld, held_count, held_all};

    ghost Value = { List Slot };

    ghost view = { λ s. take s.n s.at };

    ghost invariant = { λ s. FirstHeld s.n s.at };

    // What stands behind the slots that are held is known, so the list gives all of them back.
    ghost inverse = { λ l. record { n = length l; at = l ++ blank_behind (length l) } };

    ghost inverse_ok = { λ s h i. record { n = held_count h i; at = held_all h i } };
}

impl Slots {
    // No slots.
    pub fn none() -> Slots
        ensures { result ≡ no_slots }
    {
        Slots {
            n: 0,
            at: [Slot::default(); MAX_LOSSES],
        }
    }

    // The slots that are held, in order.
    pub fn held(&self) -> &[Slot]
        ensures { result.now ≡ self.now }
    {
        &self.at[..self.n]
    }

    // The slots with x among them, in order; the same slots where all are held.
    pub fn insert(&mut self, keys: &[u8], x: Slot)
        ensures { self.new ≡ with_slot keys.now self.old x }
    {
        if self.n < MAX_LOSSES {
            let to = self
                .held()
                .iter()
                .position(|&y| comes_before(keys, x, y))
                .unwrap_or(self.n);
            self.at[self.n] = x;
            self.n += 1;
            last_first(&mut self.at[to..self.n]);
        }
    }
}
