//! Joins threads, and splits their results.

ghost use Rattle.std.specs.Prelude.{◌≡◌, ◌+◌, ◌≤◌, map, vec_len};
ghost use Rattle.std.specs.List.{All, AllZip, list_any};
ghost use Rattle.run_threads.specs.inner.Ready.{HasRoom};
ghost use Rattle.run_threads.specs.inner.Started.{after_joins, valuers_in};

use crate::file_reading::FileRead;
use crate::read_result::ReadResult;
use crate::starts::{RunPromise, Starter};
use lane::{EndedPut, TakeEnd};
use rows::PackedItems;
use std::thread::{Promise, PromisedHandle, Threads};
use valuers::ValuerResult;

/// Joins each thread and returns their results in order. `following` is the part of the lane that must exist before.
pub fn join_all<'s, E, T: Threads, A: Drop, P: Promise<A> + RunPromise>(
    starter: &mut Starter<'s, E, T>,
    handles: Vec<PromisedHandle<A, P>>,
    mut results: Vec<A>,
    following: &P::After,
) -> Vec<A>
    requires room { HasRoom (vec_len handles) results }
    requires running { starter.old.joined + vec_len handles ≤ starter.old.spent }
    requires lane { All (λ h. P.lane h.promise ≡ P.After.lane_of following.now) handles.items }
    requires ends { P.After.ends following.now (valuers_in starter.old) }
    ensures kept { AllZip (λ h r. P.kept_by h.promise r) handles.items result.items }
    ensures count { vec_len result ≡ vec_len handles }
    ensures counted { starter.new ≡ after_joins (vec_len handles) starter.old }
{
    for handle in handles {
        results.push(starter.join(handle, following)).unwrap();
    }
    results
}

/// Splits the results of readers into ended put ends and results of reading.
pub fn split_reads(
    reads: Vec<FileRead>,
    mut ended: Vec<EndedPut>,
    mut answers: Vec<ReadResult>,
) -> (Vec<EndedPut>, Vec<ReadResult>)
    requires room { HasRoom (vec_len reads) ended }
    requires room_for_answers { HasRoom (vec_len reads) answers }
    ensures ended { result.0.items ≡ map (λ read. read.ended) reads.items }
    ensures answers { result.1.items ≡ map (λ read. read.answer) reads.items }
{
    for read in reads {
        let FileRead { ended: end, answer } = read;
        ended.push(end).unwrap();
        answers.push(answer).unwrap();
    }
    (ended, answers)
}

/// Splits the results of valuers into take ends and items, and returns whether one of them was refused memory.
pub fn split_values(
    values: Vec<ValuerResult<PackedItems>>,
    mut takers: Vec<TakeEnd>,
    mut items: Vec<PackedItems>,
) -> (Vec<TakeEnd>, Vec<PackedItems>, bool)
    requires room { HasRoom (vec_len values) takers }
    requires room_for_items { HasRoom (vec_len values) items }
    ensures takers { result.0.items ≡ map (λ value. value.taker) values.items }
    ensures items { result.1.items ≡ map (λ value. value.items) values.items }
    ensures memory { result.2 ≡ list_any (λ value. value.memory) values.items }
{
    let mut refused = false;
    for value in values {
        let ValuerResult {
            taker,
            items: passed_on,
            memory,
        } = value;
        takers.push(taker).unwrap();
        items.push(passed_on).unwrap();
        refused = refused || memory;
    }
    (takers, items, refused)
}
