//! A table of images by the numbers of their terms, which lives over many imagings.

ghost use Rattle.std.specs.Prelude.{◌≡◌, ◌<◌, ◌+◌, ◌==◌, [], None, OnErr, OnOk, if◌then◌else◌, is_some, length};
ghost use Rattle.std.specs.Option.{option_flatten};
ghost use Rattle.held_instances.specs.Image.{image_at};
ghost use Rattle.held_instances.specs.inner.Imaging.{IsOrdered, Updates};
ghost use Rattle.held_instances.specs.inner.Slots.{IsGrown};

use rv_words::{List, NoMemory};
use std::alloc::Global;
use std::marker::Model;

/// What is kept for a number, and the turn in which that was written.
#[derive(Clone, Copy)]
struct Slot {
    turn: u64,
    image: Option<u64>,
}

/// A slot that was never written.
const EMPTY: Slot = Slot {
    turn: 0,
    image: None,
};

/// The numbers whose images were asked for since the table was cleared, each with that of its
/// image, or with none while that is being made. A number's slot stands at the place of the number.
/// The table is cleared at no cost for each slot: what an earlier turn wrote counts no more. It has
/// as many slots as the arena has terms at most.
#[derive(Drop)]
pub struct ImageTable {
    alloc: Global,
    slots: List<Slot>,
    turn: u64,
}

impl Model for ImageTable {
    ghost use Rattle.held_instances.specs.Image.{Known};
    ghost use Rattle.held_instances.specs.inner.Slots.{AreSlots, entries_from};

    ghost Value = { Known };

    ghost view = { λ t. entries_from t.turn 0 t.slots };

    ghost invariant = { λ t. AreSlots t.turn t.slots };
}

impl ImageTable {
    /// No images yet.
    pub fn new(alloc: Global) -> ImageTable
        ensures { result ≡ [] }
    {
        ImageTable {
            alloc,
            slots: List::new(alloc),
            turn: 1,
        }
    }

    /// Forgets all images.
    pub(crate) fn clear(&mut self)
        ensures { self.new ≡ [] }
    {
        match self.turn.checked_add(1) {
            Some(turn) => self.turn = turn,
            None => *self = ImageTable::new(self.alloc),
        }
    }

    /// The number of the image of a number, if it was made.
    pub(crate) fn get(&self, x: u64) -> Option<u64>
        ensures { result ≡ option_flatten (image_at self.now x) }
    {
        match self.slots.get(x as usize) {
            Some(slot) => image_of(self.turn, *slot),
            None => None,
        }
    }

    /// Keeps what is known of a number.
    pub(crate) fn insert(&mut self, x: u64, image: Option<u64>) -> Result<(), NoMemory>
        ensures updates { OnOk result (Updates self.old self.new x image) }
        ensures len { OnOk result (length self.new
            ≡ length self.old + (if is_some (image_at self.old x) then 0 else 1)) }
        ensures err { OnErr result (self.new ≡ self.old) }
        ensures ordered { IsOrdered self.new }
    {
        let place = x as usize;
        reach(&mut self.slots, place)?;
        let turn = self.turn;
        self.slots.set(place, Slot { turn, image });
        Ok(())
    }
}

/// What a slot keeps of that turn.
fn image_of(turn: u64, slot: Slot) -> Option<u64>
    ensures { result ≡ if slot.turn == turn then slot.image else None }
{
    if slot.turn == turn { slot.image } else { None }
}

/// Sees that there is a slot at that place.
fn reach(slots: &mut List<Slot>, place: usize) -> Result<(), NoMemory>
    ensures grown { IsGrown slots.old slots.new }
    ensures there { OnOk result (place < length slots.new) }
{
    if place < slots.len() {
        return Ok(());
    }
    grow(slots, place)
}

/// Adds slots that were never written, up to that place.
#[cold]
#[inline(never)]
fn grow(slots: &mut List<Slot>, place: usize) -> Result<(), NoMemory>
    ensures grown { IsGrown slots.old slots.new }
    ensures there { OnOk result (place < length slots.new) }
{
    let first = slots.len();
    for _ in first..place {
        slots.push(EMPTY)?;
    }
    slots.push(EMPTY)?;
    Ok(())
}
