//! Which frames are free, as bits.

ghost use Rattle.std.specs.Prelude.{◌≡◌, ◌≢◌, ◌<◌, ◌≤◌, ◌/◌, ◌%◌, ℕ, true, false};
ghost use Rattle.std.specs.Prelude.{nat_lt, IfSome, IfNone, IsTrue};
ghost use Rattle.frame_memory.specs.FreeMap.{has_frame, IsLeast};

use std::marker::Model;

/// The free frames, of which the least is found at once. Frame `f` has bit `f % 64` of word `f / 64`; bit `k`
/// of the summary is set exactly where word `k` isn't 0. A contract sees the words.
#[derive(Drop)]
pub struct FreeMap {
    words: [u64; 64],
    summary: u64,
}

impl Model for FreeMap {
    ghost use Rattle.std.specs.Prelude.{List, ℕ};
    ghost use Rattle.frame_memory.specs.FreeMap.{IsSummed};

    ghost Value = { List ℕ };

    ghost view = { λ map. map.words };

    ghost invariant = { λ map. IsSummed map.words map.summary };
}

impl FreeMap {
    /// No frames.
    pub fn new() -> FreeMap
        ensures { (f : ℕ) → has_frame result f ≡ false }
    {
        FreeMap {
            words: [0; 64],
            summary: 0,
        }
    }

    /// The frames below this number, at most 4096.
    pub fn below(count: u32) -> FreeMap
        requires { count ≤ 4096 }
        ensures { (f : ℕ) → has_frame result f ≡ nat_lt f count }
    {
        let mut frames = FreeMap::new();
        for frame in 0..count {
            frames.insert(frame);
        }
        frames
    }

    /// Whether the frame is one of them. None is from 4096 on.
    pub fn contains(&self, frame: u32) -> bool
        ensures value { result ≡ has_frame self.now frame }
        ensures within { IsTrue result → frame < 4096 }
    {
        let words = &self.words;
        if frame >= 4096 {
            return false;
        }
        let (word, bit) = FreeMap::place(frame);
        (words[word] >> bit) & 1 == 1
    }

    /// The least of the frames.
    pub fn first(&self) -> Option<u32>
        ensures some { IfSome result (IsLeast self.now) }
        ensures none { IfNone result ((f : ℕ) → has_frame self.now f ≡ false) }
    {
        let words = &self.words;
        if self.summary == 0 {
            return None;
        }
        let word = self.summary.trailing_zeros();
        let bits = words[word as usize];
        Some(64 * word + bits.trailing_zeros())
    }

    /// Adds the frame.
    pub fn insert(&mut self, frame: u32)
        requires { frame < 4096 }
        ensures this { has_frame self.new frame ≡ true }
        ensures others { (f : ℕ) → f ≢ frame → has_frame self.new f ≡ has_frame self.old f }
    {
        let (word, bit) = FreeMap::place(frame);
        self.words[word] |= 1 << bit;
        self.summary |= 1 << word;
    }

    /// Takes the frame away.
    pub fn remove(&mut self, frame: u32)
        requires { frame < 4096 }
        ensures this { has_frame self.new frame ≡ false }
        ensures others { (f : ℕ) → f ≢ frame → has_frame self.new f ≡ has_frame self.old f }
    {
        let (word, bit) = FreeMap::place(frame);
        self.words[word] &= !(1 << bit);
        if self.words[word] == 0 {
            self.summary &= !(1 << word);
        }
    }

    // The word and the bit of a frame.
    fn place(frame: u32) -> (usize, u32)
        requires { frame < 4096 }
        ensures word { result.0 ≡ frame / 64 }
        ensures bit { result.1 ≡ frame % 64 }
    {
        ((frame / 64) as usize, frame % 64)
    }
}
