// The steps of a script, each done to the whole of the play: both masters, the link, and the numbers handed out. Each prints what it did.
use crate::link::Link;
use crate::masters::{Master, Strip};
use crate::report;
use crate::words::{Side, Step};
use pool_state::Role;
use refusal::Refusal;
use std::{io, mem};

// Which numbers were handed out, how many, and how many of them twice. A script has at most 65,536 characters and a taking takes five, so that every number has a place.
#[derive(Clone, Copy)]
pub struct Tally {
    seen: [bool; 16384],
    pub numbers: u32,
    pub twice: u32,
}

impl Tally {
    const EMPTY: Tally = Tally {
        seen: [false; 16384],
        numbers: 0,
        twice: 0,
    };

    // A number was handed out.
    fn note(&mut self, number: u32) {
        let Some(seen) = self.seen.get_mut(number as usize) else {
            return;
        };
        if mem::replace(seen, true) {
            self.twice = self.twice.saturating_add(1);
        } else {
            self.numbers = self.numbers.saturating_add(1);
        }
    }
}

// A master, and what its host has stored of it last.
#[derive(Clone, Copy)]
pub struct Cabinet {
    pub master: Master,
    stored: Master,
}

impl Cabinet {
    fn new(role: Role) -> Cabinet {
        let master = Master::new(role);
        Cabinet {
            master,
            stored: master,
        }
    }

    // The states tell whether all is stored, since every call that changes the rooms changes the state, and none takes a count back.
    fn is_stored(&self) -> bool {
        self.master.state == self.stored.state
    }

    // Its host stores the master, whole.
    fn store(&mut self) {
        self.stored = self.master;
    }

    // The master has lost power, and starts again from what was stored last.
    fn restart(&mut self) {
        self.master = self.stored;
    }
}

#[derive(Drop)]
pub struct Play {
    pub active: Cabinet,
    pub standby: Cabinet,
    messages: Link,
    acknowledgements: Link,
    pub tally: Tally,
    made: u32,
    pub power: bool,
    hasty: bool,
}

impl Play {
    pub fn new() -> Play {
        Play {
            active: Cabinet::new(Role::Active),
            standby: Cabinet::new(Role::Standby),
            messages: Link::EMPTY,
            acknowledgements: Link::EMPTY,
            tally: Tally::EMPTY,
            made: 0,
            power: true,
            hasty: false,
        }
    }

    fn cabinet(&mut self, side: Side) -> &mut Cabinet {
        match side {
            Side::Active => &mut self.active,
            Side::Standby => &mut self.standby,
        }
    }

    // Something is about to leave a cabinet: its host stores the master first. A hasty one does not, and it is said so.
    fn leave(&mut self, rt: &impl Print, side: Side) -> io::Result<()> {
        let hasty = self.hasty;
        let cabinet = self.cabinet(side);
        if cabinet.is_stored() {
            return Ok(());
        }
        if hasty {
            return print!(rt; "not stored: ");
        }
        cabinet.store();
        Ok(())
    }

    // What a call answered, and the strip that it handed out, if it did.
    fn hand_out(
        &mut self,
        rt: &impl Print,
        side: Side,
        answer: Result<Option<Strip>, Refusal>,
    ) -> io::Result<()> {
        let Ok(Some(strip)) = answer else {
            return report::answer(rt, &answer);
        };
        self.leave(rt, side)?;
        report::strip(rt, &strip, side)?;
        self.tally.note(strip.number);
        Ok(())
    }

    // The next strip that is made is the one of this number.
    fn make(&mut self) -> u32 {
        self.made = self.made.saturating_add(1);
        self.made
    }

    // A strip is added.
    fn add(&mut self, rt: &impl Print, side: Side, key_size: u32) -> io::Result<()> {
        let made = self.make();
        if key_size > 32 {
            return print!(rt; "no such strip is made");
        }
        let answer = self.cabinet(side).master.add(key_size as u8, made);
        report::answer(rt, &answer)
    }

    fn take(&mut self, rt: &impl Print, side: Side) -> io::Result<()> {
        let answer = self.cabinet(side).master.take();
        self.hand_out(rt, side, answer)
    }

    // The outstanding message is read out and put on the link.
    fn send(&mut self, rt: &impl Print) -> io::Result<()> {
        let Some(message) = self.active.master.outstanding() else {
            return print!(rt; "nothing is outstanding");
        };
        self.messages.put(message);
        self.leave(rt, Side::Active)?;
        report::sent(rt, "message", &self.messages, &message)
    }

    // The n-th message ever sent comes to the standby, whose acknowledgement is put on the link.
    fn deliver(&mut self, rt: &impl Print, n: u32) -> io::Result<()> {
        let Some(message) = self.messages.get(n) else {
            return print!(rt; "no such message is kept");
        };
        let answer = self.standby.master.apply(&message);
        let Ok(acknowledgement) = answer else {
            return report::answer(rt, &answer);
        };
        self.leave(rt, Side::Standby)?;
        self.acknowledgements.put(acknowledgement);
        report::sent(
            rt,
            "acknowledgement",
            &self.acknowledgements,
            &acknowledgement,
        )
    }

    // The n-th acknowledgement ever sent comes to the active.
    fn answer(&mut self, rt: &impl Print, n: u32) -> io::Result<()> {
        let Some(acknowledgement) = self.acknowledgements.get(n) else {
            return print!(rt; "no such acknowledgement is kept");
        };
        let answer = self.active.master.acknowledge(&acknowledgement);
        self.hand_out(rt, Side::Active, answer)
    }

    // A strip is added and its message makes the whole way, with nothing lost and past what the link keeps. What the standby refuses is no refusal of the active's.
    fn stock_one(&mut self) -> Result<(), Refusal> {
        let made = self.make();
        self.active.master.add(16, made)?;
        let Some(message) = self.active.master.outstanding() else {
            return Ok(());
        };
        let Ok(acknowledgement) = self.standby.master.apply(&message) else {
            return Ok(());
        };
        self.active.master.acknowledge(&acknowledgement)?;
        Ok(())
    }

    // So many strips are stocked, up to the first that is refused.
    fn stock_all(&mut self, count: u32) -> Result<(), Refusal> {
        for _ in 0..count {
            self.stock_one()?;
        }
        Ok(())
    }

    // What was stocked is stored, at both masters.
    fn stock(&mut self, rt: &impl Print, count: u32) -> io::Result<()> {
        let answer = self.stock_all(count);
        report::answer(rt, &answer)?;
        self.active.store();
        self.standby.store();
        Ok(())
    }

    // The standby goes on alone.
    fn alone(&mut self, rt: &impl Print, power: bool) -> io::Result<()> {
        self.power = power;
        let answer = self.standby.master.go_alone();
        report::answer(rt, &answer)
    }

    fn store(&mut self, rt: &impl Print, side: Side) -> io::Result<()> {
        self.cabinet(side).store();
        print!(rt; "stored")
    }

    fn restart(&mut self, rt: &impl Print, side: Side) -> io::Result<()> {
        self.cabinet(side).restart();
        if side == Side::Active {
            self.power = true;
        }
        print!(rt; "starts again from what was stored")
    }

    // Whether the hosts let things leave that are not stored.
    fn hosts(&mut self, rt: &impl Print, hasty: bool) -> io::Result<()> {
        self.hasty = hasty;
        if hasty {
            print!(rt; "both hosts let things leave that are not stored")
        } else {
            print!(rt; "both hosts store before anything leaves")
        }
    }

    pub fn step(&mut self, rt: &impl Print, step: Step) -> io::Result<()> {
        if !self.power && step.needs_power() {
            return print!(rt; "the active has no power");
        }
        match step {
            Step::Add(side, key_size) => self.add(rt, side, key_size),
            Step::Take(side) => self.take(rt, side),
            Step::Send => self.send(rt),
            Step::Deliver(n) => self.deliver(rt, n),
            Step::Answer(n) => self.answer(rt, n),
            Step::Cut => self.alone(rt, false),
            Step::Alone => self.alone(rt, self.power),
            Step::Stock(count) => self.stock(rt, count),
            Step::Store(side) => self.store(rt, side),
            Step::Restart(side) => self.restart(rt, side),
            Step::Hasty => self.hosts(rt, true),
            Step::Careful => self.hosts(rt, false),
        }
    }
}
