ghost use Rattle.std.specs.Prelude.{◌≡◌, ◌<◌, true, false};
ghost use Rattle.flit_structure.specs.Meanings.{IsServed};
ghost use Rattle.flit_speed.specs.Benches.{IsAlone, HasReply, MayOpen};

use flit_model::{Call, Machine, Reply};
use flit_pv::Hand;
use flit_structure::Structure;

/// A structure on a machine, and its one worker's operation, which is at the call begun last.
#[derive(Drop)]
pub(crate) struct Bench<S: Structure> {
    pub(crate) structure: S,
    pub(crate) machine: Machine,
    pub(crate) op: S::Op,
    /// How many calls it has begun.
    pub(crate) calls: u32,
    /// How many events it has made, as far as they go.
    pub(crate) events: u64,
}

impl<S: Structure> Bench<S> {
    /// Makes the next event, and answers whether there was one.
    fn makes_event(&mut self) -> bool
        requires { IsAlone (S.meaning self.old.structure) self.old.calls self.old.machine
            self.old.op }
        ensures alone { IsAlone (S.meaning self.new.structure) self.new.calls self.new.machine
            self.new.op }
        ensures structure { self.new.structure ≡ self.old.structure }
        ensures falls { result ≡ true → (S.meaning self.new.structure).to_go self.new.machine
            self.new.op < (S.meaning self.old.structure).to_go self.old.machine self.old.op }
        ensures ended { result ≡ false → HasReply (S.meaning self.new.structure) self.new.op }
    {
        match self.structure.ask(&self.op) {
            Some(event) => {
                let answer = self.machine.apply(event);
                self.structure.take(&mut self.op, answer);
                self.events = self.events.wrapping_add(1);
                true
            }
            None => false,
        }
    }

    /// Makes the events of the call that has been begun.
    fn finishes(&mut self)
        requires { IsAlone (S.meaning self.old.structure) self.old.calls self.old.machine
            self.old.op }
        ensures alone { IsAlone (S.meaning self.new.structure) self.new.calls self.new.machine
            self.new.op }
        ensures structure { self.new.structure ≡ self.old.structure }
        ensures ended { HasReply (S.meaning self.new.structure) self.new.op }
    {
        while self.makes_event() {}
    }

    /// Begins the first call on this machine, and makes its events.
    pub(crate) fn open(structure: S, machine: Machine, call: Call) -> Bench<S>
        requires opens { MayOpen (S.meaning structure) machine }
        requires served { IsServed (S.meaning structure).layout call }
        ensures structure { result.structure ≡ structure }
        ensures alone { IsAlone (S.meaning result.structure) result.calls result.machine result.op }
        ensures ended { HasReply (S.meaning result.structure) result.op }
    {
        let op = structure.start(Hand::first(1), call);
        let mut bench = Bench {
            structure,
            machine,
            op,
            calls: 1,
            events: 0,
        };
        bench.finishes();
        bench
    }

    /// Makes the events of one more call, and answers with its reply; None where no more calls can be counted.
    pub(crate) fn call(&mut self, call: Call) -> Option<Reply>
        requires alone { IsAlone (S.meaning self.old.structure) self.old.calls self.old.machine
            self.old.op }
        requires ended { HasReply (S.meaning self.old.structure) self.old.op }
        requires served { IsServed (S.meaning self.old.structure).layout call }
        ensures structure { self.new.structure ≡ self.old.structure }
        ensures alone { IsAlone (S.meaning self.new.structure) self.new.calls self.new.machine
            self.new.op }
        ensures ended { HasReply (S.meaning self.new.structure) self.new.op }
    {
        if self.calls == u32::MAX {
            return None;
        }
        self.structure.start_again(&mut self.op, call);
        self.calls += 1;
        self.finishes();
        self.structure.reply(&self.op)
    }
}
