// What calls of a store answer, and which of them call a device.
use crate::steps::{Answer, Step, answers_are, calls_of_last};
use std::test::Fail;

const DONE: Answer = Answer::Done;

// One put, committed twice.
const TWICE: [Step; 5] = [
    Step::Begin(1),
    Step::Put(100, 7),
    Step::Keep,
    Step::Commit,
    Step::Commit,
];

#[test]
fn a_commit_with_nothing_put_calls_no_device(rt: HostRuntime) -> Result<(), Fail> {
    let alloc = rt.alloc();
    assert!(rt; answers_are(alloc, &TWICE, &[DONE; 5])?);
    assert!(rt; 0 < calls_of_last(alloc, &TWICE[..4])?);
    assert_eq!(rt; calls_of_last(alloc, &TWICE)?, 0);
    Ok(())
}

const COMMITTED: [Step; 12] = [
    Step::Begin(1),
    Step::Put(100, 7),
    Step::Byte(100),
    Step::Oldest(100),
    Step::Pending,
    Step::Keep,
    Step::Commit,
    Step::Pending,
    Step::Byte(100),
    Step::Oldest(100),
    Step::Checkpoint,
    Step::Oldest(100),
];

#[test]
fn a_put_is_home_after_the_checkpoint(rt: HostRuntime) -> Result<(), Fail> {
    let wanted = [
        DONE,
        DONE,
        Answer::Number(7),
        Answer::Number(0),
        Answer::Number(1),
        DONE,
        DONE,
        Answer::Number(0),
        Answer::Number(7),
        Answer::Number(0),
        DONE,
        Answer::Number(7),
    ];
    assert!(rt; answers_are(rt.alloc(), &COMMITTED, &wanted)?);
    Ok(())
}

const FAILING: [Step; 8] = [
    Step::Begin(2),
    Step::Put(100, 7),
    Step::Put(101, 8),
    Step::Keep,
    Step::Fail(0),
    Step::Commit,
    Step::Commit,
    Step::Checkpoint,
];

// A commit whose call with this number fails, and two calls behind it.
fn failing(call: u64) -> [Step; 8] {
    let mut steps = FAILING;
    steps[4] = Step::Fail(call);
    steps
}

#[test]
fn a_fault_is_answered_and_then_counted(rt: HostRuntime) -> Result<(), Fail> {
    let alloc = rt.alloc();
    let failed = Answer::Failed(1);
    let wanted = [DONE, DONE, DONE, DONE, DONE, Answer::Disk, failed, failed];
    let calls = calls_of_last(
        alloc,
        &[
            Step::Begin(2),
            Step::Put(100, 7),
            Step::Put(101, 8),
            Step::Keep,
            Step::Commit,
        ],
    )?;
    // Three sectors of lists, a barrier, the journal header read and written, and a barrier.
    assert_eq!(rt; calls, 7);
    for call in 0..calls {
        let steps = failing(call);
        assert!(rt; answers_are(alloc, &steps, &wanted)?, "call {call}");
        assert_eq!(rt; calls_of_last(alloc, &steps)?, 0, "call {call}");
        assert_eq!(rt; calls_of_last(alloc, &steps[..7])?, 0, "call {call}");
    }
    // The call behind the last doesn't fail the commit.
    assert!(rt; !answers_are(alloc, &failing(calls), &wanted)?);
    Ok(())
}

// Two lists name the sector, and no slot keeps it.
const LIVE: [Step; 10] = [
    Step::Begin(1),
    Step::Put(100, 7),
    Step::Keep,
    Step::Commit,
    Step::Begin(1),
    Step::Put(100, 8),
    Step::Keep,
    Step::Commit,
    Step::Byte(100),
    Step::Oldest(100),
];

#[test]
fn a_live_sector_is_read_from_the_ring_by_one_call(rt: HostRuntime) -> Result<(), Fail> {
    let alloc = rt.alloc();
    let wanted = [
        DONE,
        DONE,
        DONE,
        DONE,
        DONE,
        DONE,
        DONE,
        DONE,
        Answer::Number(8),
        Answer::Number(0),
    ];
    assert!(rt; answers_are(alloc, &LIVE, &wanted)?);
    assert_eq!(rt; calls_of_last(alloc, &LIVE[..9])?, 1);
    Ok(())
}

// A sector that was put is no device call; a read and a write that fail are counted.
const READING: [Step; 9] = [
    Step::Begin(1),
    Step::Put(100, 7),
    Step::Keep,
    Step::Fail(0),
    Step::Fail(1),
    Step::Byte(100),
    Step::Byte(101),
    Step::Spill(101, 9),
    Step::Commit,
];

#[test]
fn faults_of_a_space_are_counted(rt: HostRuntime) -> Result<(), Fail> {
    let alloc = rt.alloc();
    let wanted = [
        DONE,
        DONE,
        DONE,
        DONE,
        DONE,
        Answer::Number(7),
        Answer::Number(255),
        Answer::Disk,
        Answer::Failed(2),
    ];
    assert!(rt; answers_are(alloc, &READING, &wanted)?);
    assert_eq!(rt; calls_of_last(alloc, &READING[..6])?, 0);
    Ok(())
}

const UNDONE: [Step; 17] = [
    Step::Begin(2),
    Step::Put(100, 1),
    // The same sector again takes no more room.
    Step::Put(100, 2),
    Step::HasSpare(1),
    Step::Keep,
    Step::Begin(2),
    Step::HasSpare(2),
    Step::Put(100, 3),
    Step::Put(101, 3),
    Step::Byte(100),
    Step::Undo,
    Step::Byte(100),
    Step::Byte(101),
    Step::Pending,
    Step::Commit,
    Step::Checkpoint,
    Step::Oldest(100),
];

#[test]
fn an_undone_put_is_gone(rt: HostRuntime) -> Result<(), Fail> {
    let wanted = [
        DONE,
        DONE,
        DONE,
        DONE,
        DONE,
        DONE,
        DONE,
        DONE,
        DONE,
        Answer::Number(3),
        DONE,
        Answer::Number(2),
        Answer::Number(0),
        Answer::Number(1),
        DONE,
        DONE,
        Answer::Number(2),
    ];
    assert!(rt; answers_are(rt.alloc(), &UNDONE, &wanted)?);
    Ok(())
}

const SPILLED: [Step; 6] = [
    Step::Spill(100, 7),
    Step::Byte(100),
    Step::Oldest(100),
    Step::Commit,
    Step::Oldest(100),
    Step::Commit,
];

#[test]
fn a_spilled_sector_is_written_at_once(rt: HostRuntime) -> Result<(), Fail> {
    let alloc = rt.alloc();
    let wanted = [
        DONE,
        Answer::Number(7),
        Answer::Number(0),
        DONE,
        Answer::Number(7),
        DONE,
    ];
    assert!(rt; answers_are(alloc, &SPILLED, &wanted)?);
    assert_eq!(rt; calls_of_last(alloc, &SPILLED[..1])?, 1);
    assert_eq!(rt; calls_of_last(alloc, &SPILLED)?, 0);
    Ok(())
}

#[test]
fn a_transaction_has_the_capacity_of_the_format(rt: HostRuntime) -> Result<(), Fail> {
    // A journal of 64 sectors with list headers of 512 bytes: 60 sectors in two lists.
    assert!(rt; answers_are(rt.alloc(), &[Step::Capacity], &[Answer::Number(60)])?);
    Ok(())
}
