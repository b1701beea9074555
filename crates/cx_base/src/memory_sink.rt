//! A sink in memory.
ghost use Rattle.std.specs.Prelude.{◌≡◌, ◌<◌, [], None, Some};
ghost use Rattle.cx_base.specs.Faults.{HasCause};
ghost use Rattle.cx_base.specs.Outside.{Takes, WriteAppends};
ghost use Rattle.cx_base.specs.Sinks.{takes_next, sink_state, Writes, unbounded};
ghost use Rattle.cx_base.specs.Calls.{one_more, one_more_call};

use crate::bytes::Bytes;
use crate::calls::CallCount;
use crate::errors::Lost;
use crate::list::List;
use crate::outside::Sink;
use std::alloc::Global;
use std::marker::Model;

/// A sink in memory, which tells the bytes that it holds.
#[derive(Debug, Drop)]
pub struct MemorySink {
    bytes: Bytes,
    calls: CallCount,
    room: Option<u64>,
    most: u64,
    faults: u64,
}

impl Model for MemorySink {
    ghost use Rattle.cx_base.specs.Sinks.{MemorySinkState};

    ghost Value = { MemorySinkState };

    ghost view = { λ s. record {
      holds = s.bytes;
      calls = s.calls;
      room = s.room;
      most = s.most;
      faults = s.faults;
    } };
}

impl MemorySink {
    /// An empty sink, of which the calls with the given numbers, counted from 0, fail.
    pub fn new(alloc: Global, failing: List<u64>) -> MemorySink
        ensures { result ≡ record {
          holds = [];
          calls = record { failing = failing; made = 0 };
          room = None;
          most = unbounded;
          faults = 0;
        } }
    {
        MemorySink {
            bytes: Bytes::new(alloc),
            calls: CallCount::new(failing),
            room: None,
            most: u64::MAX,
            faults: 0,
        }
    }

    /// An empty sink that takes `room` bytes in all; then each call on a piece that is not empty
    /// fails.
    pub fn with_room(alloc: Global, room: u64) -> MemorySink
        ensures { result ≡ record {
          holds = [];
          calls = record { failing = []; made = 0 };
          room = Some room;
          most = unbounded;
          faults = 0;
        } }
    {
        MemorySink {
            bytes: Bytes::new(alloc),
            calls: CallCount::new(List::new(alloc)),
            room: Some(room),
            most: u64::MAX,
            faults: 0,
        }
    }

    /// An empty sink that takes at most `most` bytes a call, and of which no call fails.
    pub fn slow(alloc: Global, most: u64) -> MemorySink
        requires { 0 < most }
        ensures { result ≡ record {
          holds = [];
          calls = record { failing = []; made = 0 };
          room = None;
          most = most;
          faults = 0;
        } }
    {
        MemorySink {
            bytes: Bytes::new(alloc),
            calls: CallCount::new(List::new(alloc)),
            room: None,
            most,
            faults: 0,
        }
    }

    /// The bytes taken so far.
    pub fn bytes(&self) -> &Bytes
        ensures { result.now ≡ self.now.holds }
    {
        &self.bytes
    }

    // How many bytes the next call takes at most.
    fn takes_next(&self) -> u64
        ensures { result ≡ takes_next self.now }
    {
        match self.room {
            None => self.most,
            Some(room) => room.saturating_sub(self.bytes.len() as u64).min(self.most),
        }
    }

    // A call that fails is counted, as one more fault too.
    fn fail(&mut self) -> Lost
        ensures failed { result ≡ Lost.Failed }
        ensures counted { self.new ≡ record self.old {
          calls = one_more_call self.old.calls;
          faults = one_more self.old.faults;
        } }
    {
        self.calls.count();
        self.faults = self.faults.saturating_add(1);
        Lost::Failed
    }
}

impl Sink for MemorySink {
    ghost state = { sink_state };

    fn write(&mut self, bytes: &[u8]) -> Result<usize, Lost>
        ensures takes { Takes bytes.now result }
        ensures appends { WriteAppends
            (sink_state self.old) (sink_state self.new) bytes.now result }
        ensures cause { HasCause self.old.faults self.new.faults result }

        // A call fails exactly where its number says so or no room is left.
        ensures writes { Writes self.old self.new bytes.now result }
    {
        if self.calls.next_fails() {
            return Err(self.fail());
        }
        let taken = bytes.len().min(self.takes_next() as usize);
        if taken == 0 && !bytes.is_empty() {
            return Err(self.fail());
        }
        self.bytes.push_all(&bytes[..taken])?;
        self.calls.count();
        Ok(taken)
    }
}
