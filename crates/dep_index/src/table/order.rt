//! The order of loading, which a module leaves in the same time however many are loaded.
ghost use Rattle.std.specs.Prelude.{◌≡◌, ◌≢◌, ℕ, ◌+◌, ◌*◌, ◌<◌, ◌≤◌, ◌==◌, ◌&&◌, not, true, false, [], ◌∷◌, ◌++◌, length, filter, slice_index, slice_set, drop, IfOk};
ghost use Rattle.std.specs.List.{list_any};
ghost use Rattle.std.specs.Vec.{vec_capacity};
ghost use Rattle.dep_index.specs.Table.{needs_slot};
ghost use Rattle.dep_index.specs.Table.Ordered.{is_slot, slots_in, IsPlaced, IsCounted, IsSound, IsKept, AreWithin};

use crate::reads;
use crate::table::slots::Slots;
use std::alloc::{AllocError, Global};
use std::marker::Model;
use std::mem;

/// Stands where a module left. It is no slot, since a catalogue has at most 65,535 modules.
const GAP: u16 = u16::MAX;

/// Stands for the place of a slot that entered again before it left.
const REPEATED: u32 = u32::MAX;

/// How many entries are counted together.
const BLOCK: usize = 256;

/// The slots in the order in which they entered. A slot that leaves becomes a gap. The entries are packed if they
/// reach the end of their room, which is twice that of the slots: so often as many slots have entered since.
/// Contracts see it as the list of its slots, and how many slots there are.
pub(crate) struct Order {
    /// Slots and gaps, the oldest first.
    entries: Vec<u16>,
    /// Where the entries were before they were packed.
    spare: Vec<u16>,
    /// Of each slot that is among the entries its place there.
    places: Vec<u32>,
    /// How many slots there are in each block of the entries.
    counts: Vec<u16>,
    len: usize,
}

// By hand, since a derived drop is written out, and proved, at each place where a value is let go.
impl Drop for Order {
    fn drop(self) {
        let Order {
            entries: _,
            spare: _,
            places: _,
            counts: _,
            len: _,
        } = self;
    }
}

impl Model for Order {
    ghost use Rattle.std.specs.Prelude.{length};
    ghost use Rattle.dep_index.specs.Table.Ordered.{Ordered, slots_in, IsOrder};

    ghost Value = { Ordered };

    ghost view = { λ o. record { slots = slots_in o.entries.items; room = length o.places.items } };

    ghost invariant = { λ o. IsOrder o.entries o.spare o.places.items o.counts.items o.len };
}

/// Whether the entry is a slot, and no gap.
fn is_slot(entry: u16) -> bool
    ensures { result ≡ is_slot entry }
{
    entry != GAP
}

/// Whether the slot is among the entries.
fn holds(entries: &[u16], places: &[u32], slot: u16) -> bool
    requires within { AreWithin (length places.now) entries.now }
    requires placed { IsPlaced places.now entries.now }
    requires few { length places.now ≤ 65535 }
    ensures { result ≡ list_any (λ s. s == slot) (slots_in entries.now) }
{
    if slot as usize >= places.len() {
        return false;
    }
    let place = places[slot as usize];
    if place == REPEATED {
        return entries.contains(&slot);
    }
    (place as usize) < entries.len() && entries[place as usize] == slot
}

/// What is written down as the place of a slot that enters behind the entries.
fn place_behind(entries: &[u16], places: &[u32], slot: u16) -> u32
    requires within { AreWithin (length places.now) entries.now }
    requires placed { IsPlaced places.now entries.now }
    requires few { length places.now ≤ 65535 }
    requires slot { slot < length places.now }
    requires short { length entries.now < 131070 }
    ensures place { result ≢ REPEATED → result ≡ length entries.now }
    ensures new { result ≢ REPEATED → list_any (λ s. s == slot) (slots_in entries.now) ≡ false }
{
    if places[slot as usize] == REPEATED || holds(entries, places, slot) {
        REPEATED
    } else {
        entries.len() as u32
    }
}

/// The slot stands behind the others.
fn append(entries: &mut Vec<u16>, places: &mut Vec<u32>, counts: &mut Vec<u16>, slot: u16)
    requires sound { IsSound entries.old.items places.old.items counts.old.items }
    requires few { length places.old.items ≤ 65535 }
    requires slot { slot < length places.old.items }
    requires room { length entries.old.items < vec_capacity entries.old }
    requires short { length entries.old.items < 131070 }
    requires block { length entries.old.items < 256 * length counts.old.items }
    ensures sound { IsSound entries.new.items places.new.items counts.new.items }
    ensures after { entries.new.items ≡ entries.old.items ++ slot ∷ [] }
    ensures capacity { vec_capacity entries.new ≡ vec_capacity entries.old }
    ensures places { length places.new.items ≡ length places.old.items }
    ensures counts { length counts.new.items ≡ length counts.old.items }
{
    let place = entries.len();
    places[slot as usize] = place_behind(entries, places, slot);
    counts[place / BLOCK] += 1;
    entries.push_reserved(slot);
}

/// The slot at the place leaves a gap.
fn vacate(entries: &mut Vec<u16>, counts: &mut Vec<u16>, place: usize)
    requires within { place < length entries.old.items }
    requires slot { is_slot (slice_index entries.old.items place) ≡ true }
    requires counted { IsCounted counts.old.items entries.old.items }
    requires blocks { length entries.old.items ≤ 256 * length counts.old.items }
    ensures after { entries.new.items ≡ slice_set entries.old.items place GAP }
    ensures counted { IsCounted counts.new.items entries.new.items }
    ensures capacity { vec_capacity entries.new ≡ vec_capacity entries.old }
    ensures counts { length counts.new.items ≡ length counts.old.items }
{
    entries[place] = GAP;
    counts[place / BLOCK] -= 1;
}

/// The slots of `from` but for one are put behind the entries.
fn refill(
    from: &[u16],
    without: u16,
    entries: &mut Vec<u16>,
    places: &mut Vec<u32>,
    counts: &mut Vec<u16>,
)
    requires sound { IsSound entries.old.items places.old.items counts.old.items }
    requires few { length places.old.items ≤ 65535 }
    requires empty { entries.old.items ≡ [] }
    requires within { AreWithin (length places.old.items) from.now }
    requires short { length (slots_in from.now) ≤ 131070 }
    requires room { length (slots_in from.now) ≤ vec_capacity entries.old }
    requires blocks { length (slots_in from.now) ≤ 256 * length counts.old.items }
    ensures sound { IsSound entries.new.items places.new.items counts.new.items }
    ensures after { entries.new.items ≡ filter (λ s. not (s == without)) (slots_in from.now) }
    ensures capacity { vec_capacity entries.new ≡ vec_capacity entries.old }
    ensures places { length places.new.items ≡ length places.old.items }
    ensures counts { length counts.new.items ≡ length counts.old.items }
{
    for entry in from {
        if is_slot(*entry) && *entry != without {
            append(entries, places, counts, *entry);
        }
    }
}

/// The entries without gaps, and without a slot.
fn pack(
    entries: &mut Vec<u16>,
    spare: &mut Vec<u16>,
    places: &mut Vec<u32>,
    counts: &mut Vec<u16>,
    without: u16,
)
    requires { IsKept entries.old spare.old places.old.items counts.old.items }
    ensures kept { IsKept entries.new spare.new places.new.items counts.new.items }
    ensures after { entries.new.items ≡ filter (λ s. not (s == without)) (slots_in entries.old.items) }
    ensures places { length places.new.items ≡ length places.old.items }
{
    mem::swap(entries, spare);
    entries.clear();
    counts.fill(0);
    refill(spare, without, entries, places, counts);
}

/// The entries are packed if they are at the end of their room.
fn make_room(
    entries: &mut Vec<u16>,
    spare: &mut Vec<u16>,
    places: &mut Vec<u32>,
    counts: &mut Vec<u16>,
)
    requires kept { IsKept entries.old spare.old places.old.items counts.old.items }
    requires free { length (slots_in entries.old.items) < length places.old.items }
    ensures kept { IsKept entries.new spare.new places.new.items counts.new.items }
    ensures slots { slots_in entries.new.items ≡ slots_in entries.old.items }
    ensures places { length places.new.items ≡ length places.old.items }
    ensures room { length entries.new.items < 2 * length places.new.items }
{
    if entries.len() == 2 * places.len() {
        pack(entries, spare, places, counts, GAP);
    }
}

/// The block in which the slot of that age stands, and how many slots of the block are older.
fn block_of(entries: &[u16], counts: &[u16], age: usize) -> (usize, usize)
    requires counted { IsCounted counts.now entries.now }
    requires blocks { length entries.now ≤ 256 * length counts.now }
    requires within { age < length (slots_in entries.now) }
    ensures block { result.0 * 256 ≤ length entries.now }
    ensures within { result.1 < length (slots_in (drop (result.0 * 256) entries.now)) }
    ensures slot { slice_index (slots_in (drop (result.0 * 256) entries.now)) result.1 ≡ slice_index (slots_in entries.now) age }
{
    let mut block = 0;
    let mut older = age;
    while older >= counts[block] as usize {
        older -= counts[block] as usize;
        block += 1;
    }
    (block, older)
}

/// The slot that has so many before it.
fn slot_behind(entries: &[u16], older: usize) -> u16
    requires { older < length (slots_in entries.now) }
    ensures { result ≡ slice_index (slots_in entries.now) older }
{
    let mut left = older;
    for entry in entries {
        if is_slot(*entry) {
            if left == 0 {
                return *entry;
            }
            left -= 1;
        }
    }
    unreachable!()
}

/// How many of the entries are slots that need the slot.
fn count_users(entries: &[u16], slots: &Slots, slot: usize) -> usize
    ensures { result ≡ length (filter (λ entry. is_slot entry && needs_slot slots.now slot entry) entries.now) }
{
    entries
        .iter()
        .filter(|entry| is_slot(**entry) && reads::needs_slot(slots, slot, **entry))
        .count()
}

impl Order {
    /// No slot, with room for as many as there are. It fails only out of memory.
    pub fn new(alloc: Global, room: usize) -> Result<Order, AllocError>
        requires { room ≤ 65535 }
        ensures { IfOk result (λ order. order ≡ record { slots = []; room = room }) }
    {
        let entries = 2 * room;
        Ok(Order {
            entries: Vec::with_capacity(alloc, entries)?,
            spare: Vec::with_capacity(alloc, entries)?,
            places: vec![in alloc; 0u32; room]?,
            counts: vec![in alloc; 0u16; entries.div_ceil(BLOCK)]?,
            len: 0,
        })
    }

    /// How many slots stand in the order.
    pub fn len(&self) -> usize
        ensures { result ≡ length self.now.slots }
    {
        self.len
    }

    /// A slot by its age, the oldest at 0.
    pub fn at(&self, age: usize) -> u16
        requires { age < length self.now.slots }
        ensures { result ≡ slice_index self.now.slots age }
    {
        let (block, older) = block_of(&self.entries, &self.counts, age);
        slot_behind(&self.entries[block * BLOCK..], older)
    }

    /// Whether the slot stands in the order.
    pub fn holds(&self, slot: u16) -> bool
        ensures { result ≡ list_any (λ s. s == slot) self.now.slots }
    {
        holds(&self.entries, &self.places, slot)
    }

    /// How many slots of the order need the slot.
    pub fn user_count(&self, slots: &Slots, slot: usize) -> usize
        ensures { result ≡ length (filter (needs_slot slots.now slot) self.now.slots) }
    {
        count_users(&self.entries, slots, slot)
    }

    /// The slot enters as the newest.
    pub fn push(&mut self, slot: u16)
        requires slot { slot < self.old.room }
        requires room { length self.old.slots < self.old.room }
        ensures { self.new ≡ record self.old { slots = self.old.slots ++ slot ∷ [] } }
    {
        make_room(
            &mut self.entries,
            &mut self.spare,
            &mut self.places,
            &mut self.counts,
        );
        append(&mut self.entries, &mut self.places, &mut self.counts, slot);
        self.len += 1;
    }

    /// The slot leaves, each time that it stands there.
    pub fn forget(&mut self, slot: u16)
        requires { slot < self.old.room }
        ensures { self.new ≡ record self.old { slots = filter (λ s. not (s == slot)) self.old.slots } }
    {
        let place = self.places[slot as usize];
        if place == REPEATED {
            pack(
                &mut self.entries,
                &mut self.spare,
                &mut self.places,
                &mut self.counts,
                slot,
            );
            self.len = self.entries.len();
            return;
        }
        if holds(&self.entries, &self.places, slot) {
            vacate(&mut self.entries, &mut self.counts, place as usize);
            self.len -= 1;
        }
    }
}
