// The table of rows.
use bench_rounds::ciphers::CipherWork;
use bench_rounds::compounds::CompoundWork;
use bench_rounds::feedback::FeedbackWork;
use bench_rounds::headers::HeaderWork;
use bench_rounds::pacing::PacerWork;
use bench_rounds::registers::{Numbers, RegisterWork};
use bench_rounds::stores::{CacheWork, Packet, StoreWork};
use bench_rounds::texts::TextWork;
use bench_sessions::queues;
use bench_sessions::sessions::SessionWork;
use mask_register::MaskRegister;
use queue_store::QueueStore;
use repair_core::NackRegister;
use resend_core::EvictingBuffer;
use std::alloc::{AllocError, Global};

/// What a row does over and over.
#[derive(Clone, Copy)]
pub enum Work {
    /// Calls of the register of slots.
    Slots(RegisterWork),
    /// Calls of the register with a mask.
    Mask(RegisterWork),
    /// Calls of the ring of sent packets.
    Ring(StoreWork),
    /// Calls of the queue of sent packets.
    Queue(StoreWork),
    /// Calls of the cache over the ring.
    RingCache(CacheWork),
    /// Calls of the cache over the queue.
    QueueCache(CacheWork),
    /// Calls of a pacer.
    Pacer(PacerWork),
    /// Headers read and written.
    Header(HeaderWork),
    /// Datagrams sealed and opened with the toy cipher.
    Toy(CipherWork),
    /// Transport-wide feedback.
    Feedback(FeedbackWork),
    /// Compound RTCP.
    Rtcp(CompoundWork),
    /// A packet pushed into the queue of those that wait, a tick, and the packet taken.
    Waiting,
    /// Calls of sessions.
    Session(SessionWork),
    /// Text of scripts and transcripts.
    Text(TextWork),
}

impl Work {
    /// Does so many operations, and tells a number that depends on what they answered, so that no
    /// compiler leaves them out.
    pub fn play(self, alloc: Global, count: u64) -> Result<u64, AllocError> {
        match self {
            Work::Slots(work) => work.play::<NackRegister>(alloc, count),
            Work::Mask(work) => work.play::<MaskRegister>(alloc, count),
            Work::Ring(work) => work.play::<EvictingBuffer<u64>>(alloc, count),
            Work::Queue(work) => work.play::<QueueStore<u64>>(alloc, count),
            Work::RingCache(work) => work.play::<EvictingBuffer<Packet>>(alloc, count),
            Work::QueueCache(work) => work.play::<QueueStore<Packet>>(alloc, count),
            Work::Pacer(work) => work.play(alloc, count),
            Work::Header(work) => Ok(work.play(count)),
            Work::Toy(work) => work.play(alloc, count),
            Work::Feedback(work) => work.play(alloc, count),
            Work::Rtcp(work) => work.play(alloc, count),
            Work::Waiting => queues::pass_all(alloc, count),
            Work::Session(work) => work.play(alloc, count),
            Work::Text(work) => work.play(alloc, count),
        }
    }
}

/// A row of the table.
#[derive(Clone, Copy)]
pub struct Row {
    /// Its name.
    pub name: &'static str,
    /// What is done.
    pub work: Work,
    /// How many operations a round has.
    pub count: u64,
}

/// The rows, in the order in which they are timed.
pub static ROWS: [Row; 63] = [
    Row {
        name: "take-in-order-slots",
        work: Work::Slots(RegisterWork::Take(Numbers::InOrder)),
        count: 1_000_000,
    },
    Row {
        name: "take-lossy-slots",
        work: Work::Slots(RegisterWork::Take(Numbers::Lossy)),
        count: 1_000_000,
    },
    Row {
        name: "take-late-slots",
        work: Work::Slots(RegisterWork::Take(Numbers::Late)),
        count: 1_000_000,
    },
    Row {
        name: "round-in-order-slots",
        work: Work::Slots(RegisterWork::Round(Numbers::InOrder)),
        count: 30_000,
    },
    Row {
        name: "round-lossy-slots",
        work: Work::Slots(RegisterWork::Round(Numbers::Lossy)),
        count: 30_000,
    },
    Row {
        name: "pending-slots",
        work: Work::Slots(RegisterWork::Pending),
        count: 1_000_000,
    },
    Row {
        name: "receive-slots",
        work: Work::Slots(RegisterWork::Receive),
        count: 1_000_000,
    },
    Row {
        name: "report-slots",
        work: Work::Slots(RegisterWork::Report),
        count: 1_000_000,
    },
    Row {
        name: "take-in-order-mask",
        work: Work::Mask(RegisterWork::Take(Numbers::InOrder)),
        count: 1_000_000,
    },
    Row {
        name: "take-lossy-mask",
        work: Work::Mask(RegisterWork::Take(Numbers::Lossy)),
        count: 1_000_000,
    },
    Row {
        name: "take-late-mask",
        work: Work::Mask(RegisterWork::Take(Numbers::Late)),
        count: 1_000_000,
    },
    Row {
        name: "round-in-order-mask",
        work: Work::Mask(RegisterWork::Round(Numbers::InOrder)),
        count: 30_000,
    },
    Row {
        name: "round-lossy-mask",
        work: Work::Mask(RegisterWork::Round(Numbers::Lossy)),
        count: 30_000,
    },
    Row {
        name: "pending-mask",
        work: Work::Mask(RegisterWork::Pending),
        count: 1_000_000,
    },
    Row {
        name: "receive-mask",
        work: Work::Mask(RegisterWork::Receive),
        count: 1_000_000,
    },
    Row {
        name: "report-mask",
        work: Work::Mask(RegisterWork::Report),
        count: 1_000_000,
    },
    Row {
        name: "push-ring",
        work: Work::Ring(StoreWork::Push),
        count: 400_000,
    },
    Row {
        name: "push-and-evict-ring",
        work: Work::Ring(StoreWork::PushAndEvict),
        count: 400_000,
    },
    Row {
        name: "get-ring",
        work: Work::Ring(StoreWork::Get),
        count: 400_000,
    },
    Row {
        name: "cache-put-100-ring",
        work: Work::RingCache(CacheWork::Put(100)),
        count: 100_000,
    },
    Row {
        name: "cache-put-2000-ring",
        work: Work::RingCache(CacheWork::Put(2_000)),
        count: 100_000,
    },
    Row {
        name: "cache-put-32000-ring",
        work: Work::RingCache(CacheWork::Put(32_000)),
        count: 100_000,
    },
    Row {
        name: "cache-by-number-ring",
        work: Work::RingCache(CacheWork::ByNumber),
        count: 400_000,
    },
    Row {
        name: "cache-by-size-ring",
        work: Work::RingCache(CacheWork::BySize),
        count: 400_000,
    },
    Row {
        name: "push-queue",
        work: Work::Queue(StoreWork::Push),
        count: 400_000,
    },
    Row {
        name: "push-and-evict-queue",
        work: Work::Queue(StoreWork::PushAndEvict),
        count: 400_000,
    },
    Row {
        name: "get-queue",
        work: Work::Queue(StoreWork::Get),
        count: 400_000,
    },
    Row {
        name: "cache-put-100-queue",
        work: Work::QueueCache(CacheWork::Put(100)),
        count: 100_000,
    },
    Row {
        name: "cache-put-2000-queue",
        work: Work::QueueCache(CacheWork::Put(2_000)),
        count: 100_000,
    },
    Row {
        name: "cache-put-32000-queue",
        work: Work::QueueCache(CacheWork::Put(32_000)),
        count: 100_000,
    },
    Row {
        name: "cache-by-number-queue",
        work: Work::QueueCache(CacheWork::ByNumber),
        count: 400_000,
    },
    Row {
        name: "cache-by-size-queue",
        work: Work::QueueCache(CacheWork::BySize),
        count: 400_000,
    },
    Row {
        name: "leaky-pacer-1",
        work: Work::Pacer(PacerWork::Leaky(1)),
        count: 200_000,
    },
    Row {
        name: "leaky-pacer-10",
        work: Work::Pacer(PacerWork::Leaky(10)),
        count: 100_000,
    },
    Row {
        name: "leaky-pacer-100",
        work: Work::Pacer(PacerWork::Leaky(100)),
        count: 20_000,
    },
    Row {
        name: "null-pacer-1",
        work: Work::Pacer(PacerWork::Null(1)),
        count: 200_000,
    },
    Row {
        name: "null-pacer-10",
        work: Work::Pacer(PacerWork::Null(10)),
        count: 50_000,
    },
    Row {
        name: "null-pacer-100",
        work: Work::Pacer(PacerWork::Null(100)),
        count: 2_000,
    },
    Row {
        name: "null-pacer-poll-1",
        work: Work::Pacer(PacerWork::NullPoll(1)),
        count: 400_000,
    },
    Row {
        name: "null-pacer-poll-10",
        work: Work::Pacer(PacerWork::NullPoll(10)),
        count: 400_000,
    },
    Row {
        name: "null-pacer-poll-100",
        work: Work::Pacer(PacerWork::NullPoll(100)),
        count: 400_000,
    },
    Row {
        name: "header-read",
        work: Work::Header(HeaderWork::Read),
        count: 400_000,
    },
    Row {
        name: "header-write",
        work: Work::Header(HeaderWork::Write),
        count: 400_000,
    },
    Row {
        name: "toy-seal-4",
        work: Work::Toy(CipherWork::Seal(4)),
        count: 50_000,
    },
    Row {
        name: "toy-seal-100",
        work: Work::Toy(CipherWork::Seal(100)),
        count: 50_000,
    },
    Row {
        name: "toy-seal-1200",
        work: Work::Toy(CipherWork::Seal(1_200)),
        count: 50_000,
    },
    Row {
        name: "toy-open-4",
        work: Work::Toy(CipherWork::Open(4)),
        count: 50_000,
    },
    Row {
        name: "toy-open-100",
        work: Work::Toy(CipherWork::Open(100)),
        count: 50_000,
    },
    Row {
        name: "toy-open-1200",
        work: Work::Toy(CipherWork::Open(1_200)),
        count: 50_000,
    },
    Row {
        name: "feedback-take",
        work: Work::Feedback(FeedbackWork::Take),
        count: 100_000,
    },
    Row {
        name: "feedback-read",
        work: Work::Feedback(FeedbackWork::Read),
        count: 50_000,
    },
    Row {
        name: "feedback-write",
        work: Work::Feedback(FeedbackWork::Write),
        count: 50_000,
    },
    Row {
        name: "feedback-apply",
        work: Work::Feedback(FeedbackWork::Apply),
        count: 50_000,
    },
    Row {
        name: "rtcp-read",
        work: Work::Rtcp(CompoundWork::Read),
        count: 50_000,
    },
    Row {
        name: "send-queue",
        work: Work::Waiting,
        count: 400_000,
    },
    Row {
        name: "session-send-4",
        work: Work::Session(SessionWork::Send(4)),
        count: 50_000,
    },
    Row {
        name: "session-send-1200",
        work: Work::Session(SessionWork::Send(1_200)),
        count: 50_000,
    },
    Row {
        name: "session-receive-4",
        work: Work::Session(SessionWork::Receive(4)),
        count: 50_000,
    },
    Row {
        name: "session-receive-1200",
        work: Work::Session(SessionWork::Receive(1_200)),
        count: 50_000,
    },
    Row {
        name: "session-repair-4",
        work: Work::Session(SessionWork::Repair(4)),
        count: 50_000,
    },
    Row {
        name: "session-repair-1200",
        work: Work::Session(SessionWork::Repair(1_200)),
        count: 50_000,
    },
    Row {
        name: "hex-text-1200",
        work: Work::Text(TextWork::Hex(1_200)),
        count: 100_000,
    },
    Row {
        name: "next-space-2480",
        work: Work::Text(TextWork::Space(2_480)),
        count: 400_000,
    },
];
