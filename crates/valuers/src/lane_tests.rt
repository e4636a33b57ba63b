//! Tests of the lane, on one thread and on one thread for each end. They are in this crate because it is proved again for its own tests
//! anyway.

ghost use Rattle.std.specs.Prelude.{◌≡◌, ℕ, ◌<◌, ◌≤◌, true, [], IfOk, IfSome, length, slice_index_or};
ghost use Rattle.std.specs.List.{All};
ghost use Rattle.lane.specs.MessageKinds.{is_done};
ghost use Rattle.lane.specs.Ends.{Lane, AreTakesFrom, first_puts, first_takes};

use lane::{Closer, EndedPut, Gathered, PutEnd, Stopped, TakeEnd, Taken, open};
use plan_parts::block::Block;
use std::alloc::{AllocError, Global};
use std::process::Abort;
use std::sync::Wait;
use std::sync::atomic::{AtomicU64, Ordering};
use std::test::Fail;
use std::thread;
use std::thread::Threads;

// Returns a block whose grade is the number of its row.
fn block(row: u32) -> Block {
    Block {
        x: 0,
        y: 0,
        z: 0,
        kg: 0,
        grade: u64::from(row),
        zone: 0,
    }
}

// Returns the only put end of a lane.
pub fn only_put(closer: &Closer, mut puts: Vec<PutEnd>) -> Option<PutEnd>
    requires { puts.items ≡ first_puts closer.now.lane 0 1 }
    ensures { IfSome result (λ put. (put.lane ≡ closer.now.lane) × (put.file ≡ 0)
        × (put.sent ≡ [])) }
{
    puts.pop()
}

// Returns the only take end of a lane.
pub fn only_take(closer: &Closer, mut takes: Vec<TakeEnd>) -> Option<TakeEnd>
    requires { takes.items ≡ first_takes closer.now.lane 0 1 }
    ensures { IfSome result (λ take. (take.lane ≡ closer.now.lane) × (take.taker ≡ 0)
        × (take.took ≡ [])) }
{
    takes.pop()
}

pub fn stop_one<R: Wait>(
    rt: &R,
    alloc: Global,
    closer: Closer,
    ended: EndedPut,
) -> Result<Stopped, AllocError>
    requires lane { ended.lane ≡ closer.lane }
    requires file { (ended.file ≡ 0) × (closer.files ≡ 1) }
    ensures lane { IfOk result (λ stopped. stopped.lane ≡ closer.lane) }
    ensures takers { IfOk result (λ stopped. stopped.takers ≡ closer.takers) }
{
    let ended = Vec::from_array(alloc, [ended])?;
    Ok(closer.stop(rt, ended))
}

pub fn gather_one<R: Wait>(
    rt: &R,
    alloc: Global,
    stopped: Stopped,
    take: TakeEnd,
) -> Result<Gathered, AllocError>
    requires lane { take.lane ≡ stopped.lane }
    requires taker { (take.taker ≡ 0) × (stopped.takers ≡ 1) }
    requires done { is_done take.took ≡ true }
{
    let takes = Vec::from_array(alloc, [take])?;
    Ok(stopped.gather(rt, takes))
}

#[test]
fn lane_on_one_thread(rt: HostRuntime) -> Result<(), Fail> {
    let alloc = rt.alloc();
    let (closer, puts, takes) = open(alloc, 1, 1, 2)?;
    let mut put = only_put(&closer, puts).expect(&rt, "a put end");
    let mut take = only_take(&closer, takes).expect(&rt, "a take end");
    put.row(&rt, block(7));
    assert_eq!(rt; put.rows(), 1);
    let ended = put.end(&rt);
    let row = Taken::Row {
        file: 0,
        place: 0,
        block: block(7),
    };
    assert_eq!(rt; take.take(&rt), row);
    assert!(rt; !take.is_done());
    assert_eq!(rt; take.take(&rt), Taken::End { file: 0, rows: 1 });
    assert!(rt; !take.is_done());
    let stopped = stop_one(&rt, alloc, closer, ended)?;
    assert_eq!(rt; take.take(&rt), Taken::Stop);
    assert!(rt; take.is_done());
    assert_eq!(rt; gather_one(&rt, alloc, stopped, take)?.rows(), 1);
    Ok(())
}

#[test]
fn quit_ends_each_taker(rt: HostRuntime) -> Result<(), Fail> {
    let (closer, _puts, takes) = open(rt.alloc(), 1, 2, 4)?;
    closer.quit(&rt, 2);
    let mut quits = 0u32;
    for mut take in takes {
        if !take.is_done() && take.take(&rt) == Taken::Quit && take.is_done() {
            quits = quits.wrapping_add(1);
        }
    }
    assert_eq!(rt; quits, 2);
    Ok(())
}

// Sends `rows` rows, and the end mark.
fn put_rows<R: Wait>(rt: &R, mut end: PutEnd, rows: u32) -> EndedPut
    requires unsent { end.sent ≡ [] }
    requires few { rows ≤ 1000000 }
    ensures lane { result.lane ≡ end.lane }
    ensures file { result.file ≡ end.file }
{
    for row in 0..rows {
        end.row(rt, block(row));
    }
    end.end(rt)
}

// Counts a taken position of a file, at `file * positions + position`.
fn note(seen: &[AtomicU64], positions: usize, file: u8, position: u32) {
    let at = usize::from(file)
        .wrapping_mul(positions)
        .wrapping_add(position as usize);
    if let Some(count) = seen.get(at) {
        count.fetch_add(1, Ordering::SeqCst);
    }
}

// Checks a message: the positions of each file must rise, and the blocks must be those that were put.
fn look_at<R: Abort>(
    rt: &R,
    next: &mut [u32; 256],
    taken: Taken,
    seen: &[AtomicU64],
    positions: usize,
) {
    match taken {
        Taken::Row { file, place, block } => {
            assert!(rt; next[usize::from(file)] <= place);
            assert!(rt; block.grade == u64::from(place));
            next[usize::from(file)] = place.wrapping_add(1);
            note(seen, positions, file, place);
        }
        Taken::End { file, rows } => {
            assert!(rt; next[usize::from(file)] <= rows);
            next[usize::from(file)] = u32::MAX;
            note(seen, positions, file, rows);
        }
        Taken::Stop | Taken::Quit => {}
    }
}

// Takes messages until a mark ends it, and checks each of them.
fn take_all<R: Wait + Abort>(
    rt: &R,
    mut end: TakeEnd,
    seen: &[AtomicU64],
    positions: usize,
) -> TakeEnd
    ensures lane { result.lane ≡ end.lane }
    ensures taker { result.taker ≡ end.taker }
    ensures done { is_done result.took ≡ true }
{
    let mut next = [0u32; 256];
    for _ in rt.forever() {
        if end.is_done() {
            return end;
        }
        let taken = end.take(rt);
        look_at(rt, &mut next, taken, seen, positions);
    }
    unreachable!()
}

// Puts `rows` rows of each file on a thread for each file, takes them on a thread for each taker, and gathers the lane.
fn hand_over<R: Threads + Wait + Abort + Sync>(
    rt: &R,
    alloc: Global,
    files: u8,
    valuers: u8,
    rows: u32,
    seen: &[AtomicU64],
    positions: usize,
) -> Result<Gathered, AllocError>
    requires files { (1 ≤ files) × (files ≤ 64) }
    requires valuers { (1 ≤ valuers) × (valuers ≤ 64) }
    requires rows { rows ≤ 1000000 }
{
    let (closer, puts, takes) = open(alloc, files, valuers, 1)?;
    let (stopped, taken) = thread::join(
        rt,
        move || -> Result<Stopped, AllocError>
            requires first { puts.items ≡ first_puts closer.lane 0 closer.files }
            requires few { rows ≤ 1000000 }
            ensures lane { IfOk result (λ stopped. stopped.lane ≡ closer.lane) }
            ensures takers { IfOk result (λ stopped. stopped.takers ≡ closer.takers) }
        { put_all(rt, closer, puts, rows) },
        move || -> Result<Vec<TakeEnd>, AllocError>
            ensures ends { IfOk result
                (λ taken. (lane : Lane) (takers : ℕ) → AreTakesFrom lane takers 0 takes.items
                → AreTakesFrom lane takers 0 taken.items) }
            ensures done { IfOk result
                (λ taken. All (λ take. is_done take.took ≡ true) taken.items) }
        { take_whole(rt, takes, seen, positions) },
    );
    let (stopped, taken) = (stopped?, taken?);
    Ok(stopped.gather(rt, taken))
}

fn put_each<R: Threads + Wait + Sync>(
    rt: &R,
    puts: Vec<PutEnd>,
    rows: u32,
) -> Result<Vec<EndedPut>, AllocError>
    requires unsent { All (λ put. put.sent ≡ []) puts.items }
    requires few { rows ≤ 1000000 }
    ensures len { IfOk result (λ ended. length ended.items ≡ length puts.items) }
    ensures lanes { IfOk result (λ ended. (i : ℕ) (d e : _) → i < length puts.items
        → (slice_index_or ended.items i d).lane ≡ (slice_index_or puts.items i e).lane) }
    ensures files { IfOk result (λ ended. (i : ℕ) (d e : _) → i < length puts.items
        → (slice_index_or ended.items i d).file ≡ (slice_index_or puts.items i e).file) }
{
    thread::map_vec(rt, puts, &|put| put_rows(rt, put, rows))
}

fn put_all<R: Threads + Wait + Sync>(
    rt: &R,
    closer: Closer,
    puts: Vec<PutEnd>,
    rows: u32,
) -> Result<Stopped, AllocError>
    requires first { puts.items ≡ first_puts closer.lane 0 closer.files }
    requires few { rows ≤ 1000000 }
    ensures lane { IfOk result (λ stopped. stopped.lane ≡ closer.lane) }
    ensures takers { IfOk result (λ stopped. stopped.takers ≡ closer.takers) }
{
    let ended = put_each(rt, puts, rows)?;
    Ok(closer.stop(rt, ended))
}

fn take_each<R: Threads + Wait + Abort + Sync>(
    rt: &R,
    takes: Vec<TakeEnd>,
    seen: &[AtomicU64],
    positions: usize,
) -> Result<Vec<TakeEnd>, AllocError>
    ensures len { IfOk result (λ taken. length taken.items ≡ length takes.items) }
    ensures lanes { IfOk result (λ taken. (i : ℕ) (d e : _) → i < length takes.items
        → (slice_index_or taken.items i d).lane ≡ (slice_index_or takes.items i e).lane) }
    ensures takers { IfOk result
        (λ taken. (i : ℕ) (d e : _) → i < length takes.items
        → (slice_index_or taken.items i d).taker ≡ (slice_index_or takes.items i e).taker) }
    ensures done { IfOk result (λ taken. All (λ take. is_done take.took ≡ true) taken.items) }
{
    thread::map_vec(rt, takes, &|take| take_all(rt, take, seen, positions))
}

// Returns all take ends of the lane, each done.
fn take_whole<R: Threads + Wait + Abort + Sync>(
    rt: &R,
    takes: Vec<TakeEnd>,
    seen: &[AtomicU64],
    positions: usize,
) -> Result<Vec<TakeEnd>, AllocError>
    ensures ends { IfOk result (λ taken. (lane : Lane) (takers : ℕ)
        → AreTakesFrom lane takers 0 takes.items → AreTakesFrom lane takers 0 taken.items) }
    ensures done { IfOk result (λ taken. All (λ take. is_done take.took ≡ true) taken.items) }
{
    let taken = take_each(rt, takes, seen, positions)?;
    Ok(taken)
}

// Each position of each file must be taken exactly once.
fn hand_over_once<R: Threads + Wait + Abort + Sync>(
    rt: &R,
    alloc: Global,
    files: u8,
    valuers: u8,
    rows: u32,
) -> Result<(), Fail>
    requires files { (1 ≤ files) × (files ≤ 64) }
    requires valuers { (1 ≤ valuers) × (valuers ≤ 64) }
    requires rows { rows ≤ 1000 }
{
    let positions = rows as usize + 1;
    let mut counts = Vec::new(alloc);
    for _ in 0..usize::from(files) * positions {
        counts.push(AtomicU64::new(0))?;
    }
    let seen = counts.as_slice();
    let gathered = hand_over(rt, alloc, files, valuers, rows, seen, positions)?;
    assert_eq!(rt; gathered.rows(), u64::from(files) * u64::from(rows));
    for count in &counts {
        assert_eq!(rt; count.load(Ordering::SeqCst), 1);
    }
    Ok(())
}

#[test]
fn two_files_and_two_takers(rt: HostRuntime) -> Result<(), Fail> {
    hand_over_once(&rt, rt.alloc(), 2, 2, 1000)
}

#[test]
fn two_files_and_three_takers(rt: HostRuntime) -> Result<(), Fail> {
    hand_over_once(&rt, rt.alloc(), 2, 3, 1000)
}

#[test]
fn sixty_four_files_and_takers(rt: HostRuntime) -> Result<(), Fail> {
    hand_over_once(&rt, rt.alloc(), 64, 64, 10)
}
