//! Sets of devices.

ghost use Rattle.std.specs.Prelude.{◌≡◌, ◌≤◌, ◌==◌, ◌-◌, ◌/◌, ◌%◌, [], ◌∷◌, length};
ghost use Rattle.iofd_words.specs.DeviceSet.{has_device, with_device, without_device, members_of};

use crate::numbers::DeviceNo;
use std::marker::Model;

/// A set of devices, kept as 256 bits; a contract sees its members by rising number.
#[derive(Drop)]
pub struct DeviceSet {
    words: [u64; 4],
}

impl Model for DeviceSet {
    ghost use Rattle.std.specs.Prelude.{List, ℕ, ◌≡◌, length};
    ghost use Rattle.iofd_words.specs.DeviceSet.{members_of};

    ghost Value = { List ℕ };

    ghost view = { λ set. members_of set.words };

    ghost invariant = { λ set. length set.words ≡ 4 };
}

impl DeviceSet {
    /// The greatest device number.
    pub const MAX: u16 = 256;

    /// No devices.
    pub fn new() -> DeviceSet
        ensures { result ≡ [] }
    {
        DeviceSet { words: [0; 4] }
    }

    /// The same devices.
    pub fn copied(&self) -> DeviceSet
        ensures { result ≡ self.now }
    {
        DeviceSet { words: self.words }
    }

    /// Whether the device is one of them.
    pub fn contains(&self, device: DeviceNo) -> bool
        ensures { result ≡ has_device self.now device.0 }
    {
        let words = &self.words;
        if device.0 == 0 || device.0 > DeviceSet::MAX {
            return false;
        }
        let (word, bit) = DeviceSet::place(device);
        (words[word] >> bit) & 1 == 1
    }

    /// Whether there are none.
    pub fn is_empty(&self) -> bool
        ensures { result ≡ (length self.now == 0) }
    {
        let [first, second, third, fourth] = self.words;
        are_clear(first, second, third, fourth)
    }

    /// Adds the device, which is in the set from then on.
    pub fn insert(&mut self, device: DeviceNo)
        requires from { 1 ≤ device.0 }
        requires to { device.0 ≤ 256 }
        ensures { self.new ≡ with_device device.0 self.old }
    {
        let (word, bit) = DeviceSet::place(device);
        self.words[word] |= 1 << bit;
    }

    /// Takes the device away, if it is there.
    pub fn remove(&mut self, device: DeviceNo)
        ensures { self.new ≡ without_device device.0 self.old }
    {
        let words = &mut self.words;
        if device.0 == 0 || device.0 > DeviceSet::MAX {
            return;
        }
        let (word, bit) = DeviceSet::place(device);
        words[word] &= !(1 << bit);
    }

    // The word and the bit of a device.
    fn place(device: DeviceNo) -> (usize, u32)
        requires from { 1 ≤ device.0 }
        requires to { device.0 ≤ 256 }
        ensures word { result.0 ≡ (device.0 - 1) / 64 }
        ensures bit { result.1 ≡ (device.0 - 1) % 64 }
    {
        let number = device.0 - 1;
        ((number / 64) as usize, u32::from(number % 64))
    }
}

// Whether no bit is set in the words.
#[tactic(auto, using(crate::proofs::Bits::members_of_none))]
fn are_clear(first: u64, second: u64, third: u64, fourth: u64) -> bool
    ensures { result ≡ (length (members_of (first ∷ second ∷ third ∷ fourth ∷ [])) == 0) }
{
    [first, second, third, fourth].iter().all(|word| *word == 0)
}
