// The records of packets and request lists, in which every number is in range or answered as not there.
#![tactic(auto)]

use channels::Channel;
use numbers::{ChannelNumber, Refusal, UnitNumber};
use units::{Mark, Units};

// A packet is blank, listed, in progress, stopping or ended with a code.
#[derive(Clone, Copy, PartialEq, Eq)]
pub enum Status {
    Blank,
    Listed,
    InProgress,
    Stopping,
    Ended(u8),
}

// Where on its channel a packet is: at a unit, or on the drum channel at an address.
#[derive(Clone, Copy, PartialEq, Eq)]
pub enum Site {
    AtUnit(UnitNumber),
    AtAddress(u32),
}

// A packet as it was last submitted.
#[derive(Clone, Copy)]
pub struct Packet {
    pub status: Status,
    pub function: u8,
    pub channel: ChannelNumber,
    pub at: Site,
}

// A place is empty, or its job runs, or is closing after a normal end or an end in error.
#[derive(Clone, Copy, PartialEq, Eq)]
pub enum JobState {
    Empty,
    Running,
    ClosingNormal,
    ClosingError,
}

// A run of blocks of core: the first and how many.
#[derive(Clone, Copy)]
pub struct Blocks {
    pub start: u8,
    pub count: u8,
}

// A job's core: its IB blocks and its DB blocks.
#[derive(Clone, Copy)]
pub struct Core {
    pub ib: Blocks,
    pub db: Blocks,
}

// A place: its job's state and 16 packets, its drum area (no words: none) and its core.
#[derive(Clone, Copy)]
pub struct Job {
    pub state: JobState,
    pub packets: [Packet; 16],
    pub from: u32,
    pub words: u32,
    pub core: Core,
}

// The listed packets of all channels in the order of submission, each as place * 16 + packet, and 0 past them.
#[derive(Clone, Copy)]
pub struct RequestList {
    pub entries: [u8; 256],
    pub count: usize,
}

// What moves on a channel: nothing, or the packet of a place, as place and packet.
#[derive(Clone, Copy)]
pub struct Carrier {
    pub motion: Option<(u8, u8)>,
}

// The request lists: what each channel has, the codes that set interlock, the places, the list, what moves on each
// channel, and the units.
#[derive(Clone, Copy)]
pub struct Lists {
    pub channels: [Channel; 16],
    pub codes: u64,
    pub jobs: [Job; 16],
    pub list: RequestList,
    pub moving: [Carrier; 16],
    pub units: Units,
}

// Where a submission goes: to a unit, or on the drum channel to an address X, for 23 to L and H.
#[derive(Clone, Copy)]
pub enum Spot {
    OnUnit(UnitNumber),
    OnDrum(u32, u32),
}

// Completion is full, cut or failed with a code.
#[derive(Clone, Copy)]
pub enum How {
    Full,
    Cut,
    Failed(u8),
}

// A call on packets, jobs, units and marks. Submit: place, packet, function, channel, and unit or address. Start and
// Complete: the channel. End: the place, and whether in error. Return: the place whose job gives the unit back. Mark:
// whether it is set.
#[derive(Clone, Copy)]
pub enum Act {
    Submit(u8, u8, u8, ChannelNumber, Spot),
    Start(ChannelNumber),
    Complete(ChannelNumber, How),
    End(u8, bool),
    Return(u8, ChannelNumber, UnitNumber),
    Mark(ChannelNumber, UnitNumber, Mark, bool),
}

// What a job is given: unit u of channel c where units[c * 16 + u]; a drum area and core.
#[derive(Clone, Copy)]
pub struct Assignment {
    pub units: [bool; 256],
    pub from: u32,
    pub words: u32,
    pub core: Core,
}

// A start: place, packet, function, unit or address.
#[derive(Clone, Copy)]
pub struct Begun {
    pub place: u8,
    pub packet: u8,
    pub function: u8,
    pub at: Site,
}

// Whether a call returned its job's facilities, and after which end.
#[derive(Clone, Copy)]
pub enum Leaving {
    Stays,
    AfterNormal,
    AfterError,
}

// What a completion or an end makes of a job: the job then, whether its facilities return, and after which end.
#[derive(Clone, Copy)]
pub struct Ending {
    pub job: Job,
    pub done: bool,
    pub leaving: Leaving,
}

// What a call answers: a completion the place and number of the packet that it ends, an end the place, and both whether
// the facilities returned.
#[derive(Clone, Copy)]
pub enum Answer {
    Done,
    Started(Begun),
    Completed(u8, u8, Leaving),
    Closed(u8, Leaving),
    Refused(Refusal),
}

// The state after a call, and its answer. The state stands first: with the answer before it a copy of the state could
// not be left out.
#[derive(Clone, Copy)]
pub struct Acted {
    pub lists: Lists,
    pub answer: Answer,
}

// A change of status that a call makes to several packets of one job. A failure that sets interlock, or 07, on a unit:
// its listed packets end with 01. 23 on a unit or on words of the drum, a unit's return, and the job's end: listed
// packets end with 16 octal, those in progress are stopping.
#[derive(Clone, Copy)]
pub enum Aim {
    Failing(ChannelNumber, UnitNumber),
    Cutting(ChannelNumber, Spot),
    Closing,
}
