//! A whole script: its first bad line, and its steps.

ghost use Rattle.std.specs.Prelude.{◌≡◌, ◌<◌, [], ◌∷◌, ◌++◌, None, MatchOption};
ghost use Rattle.std.specs.Prelude.{IfOk, IfErr, length};
ghost use Rattle.iommufd_script.specs.Opening.{bad_line_in};
ghost use Rattle.iommufd_script.specs.Script.{first_bad_line, steps_of};

use crate::error::ScriptError;
use crate::line::{Line, Step};
use crate::parsing::parse_line;
use crate::place::Place;
use crate::split::split_line;
use std::alloc::{Allocator, Global};
use std::marker::Model;
use std::vec::IntoIter;

/// The first line, counted from 1, that isn't of the grammar or at which the head is out of order or
/// breaks a limit; for a script that has no such line and ends before `begin`, the number of its lines
/// plus 1. None for a good script. It takes no memory, and time by the text's length alone.
#[tactic(auto, unfolding(crate::specs::Script::first_bad_line))]
pub fn first_bad_line(text: &[u8]) -> Option<u64>
    ensures { result ≡ first_bad_line text.now }
{
    let mut place = Place::start();
    let mut number: u64 = 0;
    let mut rest = text;
    while !rest.is_empty() {
        let (line, others) = split_line(rest);
        number += 1;
        let Some(next) = place.after(&parse_line(line)) else {
            return Some(number);
        };
        place = next;
        rest = others;
    }
    if place.begun { None } else { Some(number + 1) }
}

/// The steps of a script that are still to come, in order.
#[derive(Drop)]
pub struct Steps<'a, A: Allocator = Global> {
    steps: IntoIter<Step<'a>, A>,
}

impl<'a, A: Allocator> Model for Steps<'a, A> {
    ghost use Rattle.std.specs.Prelude.{List};
    ghost use Rattle.std.specs.Vec.Iter.{into_iter_items};
    ghost use Rattle.iommufd_script.specs.declared.line.Step.{Step};

    ghost Value = { List Step };

    ghost view = { λ steps. into_iter_items steps.steps };
}

impl<'a, A: Allocator> Steps<'a, A> {
    /// The steps of a good script, in memory of this allocator. Their bytes stay in the text.
    ///
    /// The error is BadLine with the number of the first bad line (`first_bad_line`), whatever memory there is; else
    /// NoMemory where the memory for the steps was refused.
    pub fn read(alloc: A, text: &'a [u8]) -> Result<Steps<'a, A>, ScriptError>
        ensures ok { IfOk result (λ steps. steps ≡ steps_of text.now) }
        ensures good { IfOk result (λ _. first_bad_line text.now ≡ None) }
        ensures err { IfErr result (λ error. bad_line_in error ≡ first_bad_line text.now) }
    {
        let mut steps = Vec::new(alloc);
        append_steps(&mut steps, text)?;
        Ok(Steps {
            steps: steps.into_iter(),
        })
    }

    /// Takes the next step; None where no step is left. It takes no memory.
    pub fn next_step(&mut self) -> Option<Step<'a>>
        ensures { MatchOption result ((self.old ≡ []) × (self.new ≡ [])) (λ step.
            self.old ≡ step ∷ self.new) }
    {
        self.steps.next()
    }
}

// Appends the steps of a good script. The vector is the caller's, so that no early end has to drop it.
#[tactic(auto, unfolding(crate::specs::Script::first_bad_line))]
fn append_steps<'a, A: Allocator>(
    steps: &mut Vec<Step<'a>, A>,
    text: &'a [u8],
) -> Result<(), ScriptError>
    ensures ok { IfOk result (λ _. steps.new.items ≡ steps.old.items ++ steps_of text.now) }
    ensures good { IfOk result (λ _. first_bad_line text.now ≡ None) }
    ensures err { IfErr result (λ error. bad_line_in error ≡ first_bad_line text.now) }
{
    let mut place = Place::start();
    let mut number: u64 = 0;
    let mut rest = text;
    while !rest.is_empty() {
        let (line, others) = split_line(rest);
        number += 1;
        match parse_line(line) {
            Some(Line::Step(step)) => {
                if !place.begun {
                    return Err(ScriptError::BadLine(number));
                }
                if steps.push(step).is_err() {
                    return Err(without_memory(text));
                }
            }
            Some(Line::Head(heading)) => {
                let Some(next) = place.after_heading(&heading) else {
                    return Err(ScriptError::BadLine(number));
                };
                place = next;
            }
            Some(Line::Skipped) => {}
            None => return Err(ScriptError::BadLine(number)),
        }
        rest = others;
    }
    if !place.begun {
        return Err(ScriptError::BadLine(number + 1));
    }
    Ok(())
}

// Why a script isn't carried out for whose steps there is no memory.
fn without_memory(text: &[u8]) -> ScriptError
    ensures { bad_line_in result ≡ first_bad_line text.now }
{
    match first_bad_line(text) {
        Some(number) => ScriptError::BadLine(number),
        None => ScriptError::NoMemory,
    }
}
