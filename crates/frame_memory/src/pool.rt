//! The pool of frames.

ghost use Rattle.std.specs.Prelude.{ℕ, ◌≡◌, ◌≢◌, ◌⊎◌, ◌<◌, ◌≤◌, ◌+◌, ◌-◌};
ghost use Rattle.std.specs.Prelude.{◌^◌, nat_lt, false, length, slice_index};
ghost use Rattle.std.specs.Prelude.{◌++◌, replicate, vec_capacity, is_some, IfOk, IfSome, IfNone, OnErr};
ghost use Rattle.frame_memory.specs.Pool.{fresh, is_free, least_free, free_count, with_holds, given};
ghost use Rattle.frame_memory.specs.Pool.{bytes_at, bytes_of, written, word_at, with_word, zeros, AreApart};

use crate::content::{ZEROS, overwrite, word_of, zero_bytes};
use crate::free_map::FreeMap;
use iofd_words::{Cause, FrameNo, NoMemory, Refusal};
use std::alloc::{Allocator, Global};
use std::marker::Model;

// A frame: how many holds stand on it, and its bytes.
#[derive(Drop)]
struct Frame {
    holds: u128,
    bytes: [u8; 4096],
}

/// The frames of modelled memory, counted from 0. A contract sees how many holds stand on each, and its bytes.
///
/// A frame is written when it is first needed, so that a pool of which little is used costs little. There is room
/// for the frames that lack: no hold stands on them, and they read zero.
#[derive(Drop)]
pub struct Pool<A: Allocator = Global> {
    frames: Vec<Frame, A>,
    count: u32,
    free: FreeMap,
    free_count: u32,
}

impl<A: Allocator> Model for Pool<A> {
    ghost use Rattle.std.specs.Vec.{vec_capacity};
    ghost use Rattle.frame_memory.specs.Kept.{IsKept, all_frames, seen};
    ghost use Rattle.frame_memory.specs.Pool.{FramePool};

    ghost Value = { FramePool };

    ghost view = { λ pool. seen (all_frames pool.frames.items pool.count) };

    ghost invariant = { λ pool.
        IsKept pool.frames.items (vec_capacity pool.frames) pool.count pool.free pool.free_count };
}

impl<A: Allocator> Pool<A> {
    /// A pool of so many frames, 1 to 4096, all free, that read zero. It takes all the memory that the pool
    /// ever needs; NoMemory where that is refused.
    pub fn new(alloc: A, count: u32) -> Result<Pool<A>, NoMemory>
        requires some { 1 ≤ count }
        requires few { count ≤ 4096 }
        ensures { IfOk result (λ pool. pool ≡ fresh count) }
    {
        let frames = Vec::with_capacity(alloc, count as usize)?;
        Ok(Pool {
            frames,
            count,
            free: FreeMap::below(count),
            free_count: count,
        })
    }

    /// What holds of every pool: it has few frames, and the bytes of each. The call does nothing else.
    pub fn facts(&self)
        ensures few { length self.now.holds ≤ 4096 }
        ensures bytes { length self.now.bytes ≡ length self.now.holds }
    {
        let _ = &self.count;
    }

    /// How many frames the pool has, at most 4096.
    pub fn len(&self) -> usize
        ensures value { result ≡ length self.now.holds }
        ensures few { result ≤ 4096 }
        ensures bytes { length self.now.bytes ≡ length self.now.holds }
    {
        self.count as usize
    }

    /// Whether the frame is one of the pool's.
    pub fn has(&self, frame: FrameNo) -> bool
        ensures { result ≡ nat_lt frame.0 (length self.now.holds) }
    {
        frame.0 < self.count
    }

    /// How many holds stand on the frame.
    pub fn holds(&self, frame: FrameNo) -> u128
        requires { frame.0 < length self.now.holds }
        ensures { result ≡ slice_index self.now.holds frame.0 }
    {
        match self.frames.get(frame.0 as usize) {
            Some(held) => held.holds,
            None => 0,
        }
    }

    /// Whether the frame is one of the pool's and no hold stands on it.
    pub fn is_free(&self, frame: FrameNo) -> bool
        ensures { result ≡ is_free self.now.holds frame.0 }
    {
        self.free.contains(frame.0)
    }

    /// How many frames are free.
    pub fn free_count(&self) -> u32
        ensures { result ≡ free_count self.now.holds }
    {
        self.free_count
    }

    /// Whether some frame is free.
    pub fn has_free(&self) -> bool
        ensures { result ≡ is_some (least_free self.now.holds) }
    {
        self.free.first().is_some()
    }

    /// Gives out the least free frame: one hold stands on it from then on, and it reads zero. It is refused by 6
    /// (ENOMEM, cause Frames) exactly where no frame is free, and then nothing changes. It takes no memory.
    pub fn take(&mut self) -> Result<FrameNo, Refusal>
        ensures least { IfSome (least_free self.old.holds) (λ frame. result ≡ Ok (record { 0 = frame })) }
        ensures refused { IfNone (least_free self.old.holds) (result ≡ Err (record { cause = Cause.Frames })) }
        ensures ok { IfOk result (λ frame. self.new ≡ given self.old frame.0) }
        ensures zero { IfOk result (λ frame. (i : ℕ) → i < 512 → word_at self.new frame.0 i ≡ 0) }
        ensures others { (f i : ℕ) → is_free self.old.holds f ≡ false →
            word_at self.new f i ≡ word_at self.old f i }
        ensures err { OnErr result (self.new ≡ self.old) }
    {
        let Some(frame) = self.free.first() else {
            return Err(Refusal {
                cause: Cause::Frames,
            });
        };
        self.free.remove(frame);
        self.free_count -= 1;
        fill_to(&mut self.frames, frame as usize);
        let taken = &mut self.frames[frame as usize];
        taken.holds = 1;
        taken.bytes = zero_bytes();
        Ok(FrameNo(frame))
    }

    /// Puts one more hold on the frame, be it free or not. Its bytes stay.
    pub fn hold(&mut self, frame: FrameNo)
        requires frame { frame.0 < length self.old.holds }
        requires room { slice_index self.old.holds frame.0 + 1 < 2 ^ 128 }
        ensures { self.new ≡ with_holds self.old frame.0 (slice_index self.old.holds frame.0 + 1) }
    {
        fill_to(&mut self.frames, frame.0 as usize);
        let held = &mut self.frames[frame.0 as usize];
        held.holds += 1;
        if held.holds == 1 {
            self.free.remove(frame.0);
            self.free_count -= 1;
        }
    }

    /// Takes one hold off the frame, which is free once none is left. Its bytes stay.
    pub fn release(&mut self, frame: FrameNo)
        requires { 0 < slice_index self.old.holds frame.0 }
        ensures { self.new ≡ with_holds self.old frame.0 (slice_index self.old.holds frame.0 - 1) }
    {
        let held = &mut self.frames[frame.0 as usize];
        held.holds -= 1;
        if held.holds == 0 {
            self.free.insert(frame.0);
            self.free_count += 1;
        }
    }

    /// So many bytes of the frame, from this offset on.
    pub fn read(&self, frame: FrameNo, offset: usize, len: usize) -> &[u8]
        requires frame { frame.0 < length self.now.holds }
        requires within { offset + len ≤ 4096 }
        ensures bytes { result.now ≡ bytes_at self.now frame.0 offset len }
        ensures len { length result.now ≡ len }
    {
        &self.bytes(frame)[offset..offset + len]
    }

    // The bytes of the frame, also where it wasn't needed so far.
    fn bytes(&self, frame: FrameNo) -> &[u8; 4096]
        requires { frame.0 < length self.now.holds }
        ensures { result.now ≡ bytes_of self.now frame.0 }
    {
        match self.frames.get(frame.0 as usize) {
            Some(written) => &written.bytes,
            None => &ZEROS,
        }
    }

    /// Writes the bytes into the frame, from this offset on. Every other byte stays, and every hold.
    pub fn write(&mut self, frame: FrameNo, offset: usize, bytes: &[u8])
        requires frame { frame.0 < length self.old.holds }
        requires within { offset + length bytes.now ≤ 4096 }
        ensures new { self.new ≡ written self.old frame.0 offset bytes.now }
        ensures back { bytes_at self.new frame.0 offset (length bytes.now) ≡ bytes.now }
        ensures others { (f at len : ℕ) → AreApart f at len frame.0 offset (length bytes.now) →
            bytes_at self.new f at len ≡ bytes_at self.old f at len }
    {
        fill_to(&mut self.frames, frame.0 as usize);
        overwrite(&mut self.frames[frame.0 as usize].bytes, offset, bytes);
    }

    /// Word `index` of the frame, below 512: the little-endian number in its 8 bytes from `8 * index` on.
    pub fn word(&self, frame: FrameNo, index: usize) -> u64
        requires frame { frame.0 < length self.now.holds }
        requires within { index < 512 }
        ensures { result ≡ word_at self.now frame.0 index }
    {
        word_of(self.read(frame, 8 * index, 8))
    }

    /// Writes word `index` of the frame, below 512. Every other byte stays, and every hold.
    pub fn set_word(&mut self, frame: FrameNo, index: usize, value: u64)
        requires frame { frame.0 < length self.old.holds }
        requires within { index < 512 }
        ensures new { self.new ≡ with_word self.old frame.0 index value }
        ensures word { word_at self.new frame.0 index ≡ value }
        ensures others { (f i : ℕ) → (f ≢ frame.0) ⊎ (i ≢ index) →
            word_at self.new f i ≡ word_at self.old f i }
    {
        self.write(frame, 8 * index, &value.to_le_bytes());
    }
}

// Writes the frames that lack up to this one, for which there is room.
fn fill_to<A: Allocator>(frames: &mut Vec<Frame, A>, index: usize)
    requires { index < vec_capacity frames.old }
    ensures items { frames.new.items ≡
        frames.old.items ++ replicate (index + 1 - length frames.old.items) (record { holds = 0; bytes = zeros }) }
    ensures capacity { vec_capacity frames.new ≡ vec_capacity frames.old }
{
    while frames.len() <= index {
        frames.push_reserved(Frame {
            holds: 0,
            bytes: zero_bytes(),
        });
    }
}
