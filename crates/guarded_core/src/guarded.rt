//! What is done under a guard, over any kept value. A guard's own clauses say what becomes of its pass, and are
//! followed here alone, where the value's type is a parameter.

ghost use Rattle.std.specs.Prelude.{◌≡◌, IfErr, IfOk};
ghost use Rattle.std.specs.Fn.{FnReturnsAt};
ghost use Rattle.lane_lock.specs.History.{StartsWith};
ghost use Rattle.lane_lock.specs.Outcomes.{HadAll, HadLane, MetNone, OnlySees, RefusesRead};
ghost use Rattle.lane_lock.specs.Passes.{Owns, SamePass, lane_of, lanes_of, opening_of, view_of};
ghost use Rattle.lane_lock.specs.Views.{IsBlank};
ghost use Rattle.guarded_core.specs.Guarded.{Committed, RefusesCommit, Shown};

use crate::try_error::TryError;
use iofd_words::NoMemory;
use lane_lock::{CommitError, Kept, LaneLock, NotNow, Pass};
use std::sync::Wait;

/// What is answered to the question of the value, once the lane of the pass can be had.
pub fn show<R: Wait, K: Kept, Q, T, F: Fn(&K, Q) -> T>(
    rt: &R,
    lock: &LaneLock<K>,
    pass: &mut Pass<K>,
    question: Q,
    ask: F,
) -> T
    requires owned { Owns lock.now pass.old }
    requires callable { (x : _) → F.pre ask x question }
    ensures same_pass { SamePass pass.old pass.new }
    ensures owned { Owns lock.now pass.new }
    ensures sees { OnlySees (view_of pass.old) (view_of pass.new) }
    ensures shown { (value : K) × Shown lock.now pass.new value
        × ((x : _) × (x.now ≡ value) × F.post ask x question result) }
    ensures home { IsBlank (view_of pass.new) }
    ensures had { HadLane (view_of pass.old) (view_of pass.new) }
{
    let guard = lock.read(rt, pass);
    let answer = ask(guard.get(), question);
    guard.end();
    answer
}

/// The same without waiting.
pub fn try_show<K: Kept, Q: Copy, T, F: Fn(&K, Q) -> T>(
    lock: &LaneLock<K>,
    pass: &mut Pass<K>,
    question: Q,
    ask: F,
) -> Result<T, NotNow>
    requires owned { Owns lock.now pass.old }
    requires callable { (x : _) → F.pre ask x question }
    ensures same_pass { SamePass pass.old pass.new }
    ensures owned { Owns lock.now pass.new }
    ensures sees { OnlySees (view_of pass.old) (view_of pass.new) }
    ensures shown { IfOk result (λ answer.
        (value : K) × Shown lock.now pass.new value
        × ((x : _) × (x.now ≡ value) × F.post ask x question answer)) }
    ensures met { IfOk result (λ _. MetNone (view_of pass.old) (view_of pass.new)) }
    ensures had { IfOk result (λ _. HadLane (view_of pass.old) (view_of pass.new)) }
    ensures refused { IfErr result (RefusesRead (view_of pass.old) (view_of pass.new) (lane_of pass.old)) }
    ensures home { IsBlank (view_of pass.old) → IsBlank (view_of pass.new) }
{
    try_show_later(lock, pass, question, ask)
}

/// The same of a question that may be asked of those values alone whose history begins as the lock's did, and with all
/// that the pass has seen.
pub fn try_show_later<K: Kept, Q: Copy, T, F: Fn(&K, Q) -> T>(
    lock: &LaneLock<K>,
    pass: &mut Pass<K>,
    question: Q,
    ask: F,
) -> Result<T, NotNow>
    requires owned { Owns lock.now pass.old }
    requires callable { (x : _) → StartsWith (K.history x.now) (opening_of K.history lock.now)
        → StartsWith (K.history x.now) (view_of pass.old).seen → F.pre ask x question }
    ensures same_pass { SamePass pass.old pass.new }
    ensures owned { Owns lock.now pass.new }
    ensures sees { OnlySees (view_of pass.old) (view_of pass.new) }
    ensures shown { IfOk result (λ answer.
        (value : K) × Shown lock.now pass.new value
        × ((x : _) × (x.now ≡ value) × F.post ask x question answer)) }
    ensures met { IfOk result (λ _. MetNone (view_of pass.old) (view_of pass.new)) }
    ensures had { IfOk result (λ _. HadLane (view_of pass.old) (view_of pass.new)) }
    ensures refused { IfErr result (RefusesRead (view_of pass.old) (view_of pass.new) (lane_of pass.old)) }
    ensures home { IsBlank (view_of pass.old) → IsBlank (view_of pass.new) }
{
    match pass.try_read(lock) {
        Ok(guard) => {
            let answer = ask(guard.get(), question);
            guard.end();
            Ok(answer)
        }
        Err(error) => Err(error),
    }
}

/// Applies an act that may be applied to any value, once all lanes can be had.
pub fn commit<R: Wait, K: Kept>(
    rt: &R,
    lock: &LaneLock<K>,
    pass: &mut Pass<K>,
    act: &K::Act,
) -> Result<K::Stamp, CommitError>
    requires owned { Owns lock.now pass.old }
    requires may { (value : K) → K.may value act.now }
    ensures same_pass { SamePass pass.old pass.new }
    ensures owned { Owns lock.now pass.new }
    ensures committed { IfOk result (λ stamp. Committed lock.now pass.old act.now stamp pass.new) }
    ensures refused { IfErr result (λ _. OnlySees (view_of pass.old) (view_of pass.new)) }
    ensures home { IsBlank (view_of pass.new) }
    ensures had { HadAll (view_of pass.old) (view_of pass.new) }
{
    lock.write(rt, pass).commit(act)
}

/// The same without waiting.
pub fn try_commit<K: Kept>(
    lock: &LaneLock<K>,
    pass: &mut Pass<K>,
    act: &K::Act,
) -> Result<K::Stamp, TryError<NoMemory>>
    requires owned { Owns lock.now pass.old }
    requires may { (value : K) → K.may value act.now }
    ensures same_pass { SamePass pass.old pass.new }
    ensures owned { Owns lock.now pass.new }
    ensures committed { IfOk result (λ stamp. Committed lock.now pass.old act.now stamp pass.new) }
    ensures met { IfOk result (λ _. MetNone (view_of pass.old) (view_of pass.new)) }
    ensures had { IfOk result (λ _. HadAll (view_of pass.old) (view_of pass.new)) }
    ensures refused { IfErr result (RefusesCommit (lanes_of lock.now) (view_of pass.old) (view_of pass.new)) }
    ensures home { IsBlank (view_of pass.old) → IsBlank (view_of pass.new) }
{
    match pass.try_write(lock) {
        Ok(guard) => match guard.commit(act) {
            Ok(stamp) => Ok(stamp),
            Err(CommitError::Memory(error)) => Err(TryError::Call(error)),
            Err(CommitError::Shared) => Err(TryError::NotNow(NotNow::Shared)),
        },
        Err(busy) => Err(TryError::NotNow(NotNow::Busy(busy))),
    }
}

/// Applies the act that is made of the value, without waiting, and answers what was told beside it. The act is made of
/// those values alone whose history begins as the lock's did, and with all that the pass has seen.
pub fn try_commit_later<K: Kept, T: Drop, F: Fn(&K) -> (T, K::Act)>(
    lock: &LaneLock<K>,
    pass: &mut Pass<K>,
    make: &F,
) -> Result<(T, K::Stamp), TryError<NoMemory>>
where
    K::Act: Drop,
    requires owned { Owns lock.now pass.old }
    requires callable { (x : _) → StartsWith (K.history x.now) (opening_of K.history lock.now)
        → StartsWith (K.history x.now) (view_of pass.old).seen → F.pre make.now x }
    requires may { (x : _) (told : T) (act : K.Act) → F.post make.now x (told, act) → K.may x.now act }
    ensures same_pass { SamePass pass.old pass.new }
    ensures owned { Owns lock.now pass.new }
    ensures committed { IfOk result (λ r. (act : K.Act) × (c : Committed lock.now pass.old act r.1 pass.new)
        × FnReturnsAt F.Fn make.now c.before (r.0, act)) }
    ensures met { IfOk result (λ _. MetNone (view_of pass.old) (view_of pass.new)) }
    ensures had { IfOk result (λ _. HadAll (view_of pass.old) (view_of pass.new)) }
    ensures refused { IfErr result (RefusesCommit (lanes_of lock.now) (view_of pass.old) (view_of pass.new)) }
    ensures home { IsBlank (view_of pass.old) → IsBlank (view_of pass.new) }
{
    match pass.try_write(lock) {
        Ok(guard) => {
            let (told, act) = make(guard.get());
            match guard.commit(&act) {
                Ok(stamp) => Ok((told, stamp)),
                Err(CommitError::Memory(error)) => Err(TryError::Call(error)),
                Err(CommitError::Shared) => Err(TryError::NotNow(NotNow::Shared)),
            }
        }
        Err(busy) => Err(TryError::NotNow(NotNow::Busy(busy))),
    }
}
