// The words of a script: one step a line, with a number behind some of them. Blank lines are passed over, and lines that begin with #.
use std::fmt;

// Which of the two masters a step is of.
#[derive(Clone, Copy, PartialEq, Eq)]
pub enum Side {
    Active,
    Standby,
}

impl fmt::Display for Side {
    fn fmt<W: fmt::Write>(&self, f: &mut fmt::Formatter<W>) -> fmt::Result {
        f.write_str(match self {
            Side::Active => "active",
            Side::Standby => "standby",
        })
    }
}

#[derive(Clone, Copy)]
pub enum Step {
    // add 16, 24 or 32, and standby_add: the master adds a strip of keys of this size; any other size up to 32 makes a strip of bad form
    Add(Side, u32),
    // take, standby_take: the master takes the lowest strip
    Take(Side),
    // send: the outstanding message is put on the link, as often as asked
    Send,
    // deliver N: the N-th message ever sent comes to the standby; one that is never delivered is lost
    Deliver(u32),
    // answer N: the N-th acknowledgement ever sent comes to the active
    Answer(u32),
    // cut: the active's power is cut, and the standby goes on alone
    Cut,
    // alone: the standby goes on alone, while the active is only taken for dead and goes on too
    Alone,
    // stock N: N strips of 16 byte keys are added, up to the first that is refused; their messages make the whole way and are not counted as sent
    Stock(u32),
    // store, standby_store: the master's host stores its state and rooms
    Store(Side),
    // restart, standby_restart: the master loses power and starts again from what was stored last, the active after a cut too
    Restart(Side),
    // hasty: from here on both hosts let things leave that are not stored
    Hasty,
    // careful: from here on, as at the start, both hosts store before anything leaves
    Careful,
}

impl Step {
    // Whether the active has to have power for it.
    pub fn needs_power(self) -> bool {
        matches!(
            self,
            Step::Add(Side::Active, _)
                | Step::Take(Side::Active)
                | Step::Send
                | Step::Answer(_)
                | Step::Stock(_)
                | Step::Store(Side::Active)
        )
    }
}

// The words that stand alone.
fn plain(word: &str) -> Option<Step> {
    match word {
        "take" => Some(Step::Take(Side::Active)),
        "standby_take" => Some(Step::Take(Side::Standby)),
        "send" => Some(Step::Send),
        "cut" => Some(Step::Cut),
        "alone" => Some(Step::Alone),
        "store" => Some(Step::Store(Side::Active)),
        "standby_store" => Some(Step::Store(Side::Standby)),
        "restart" => Some(Step::Restart(Side::Active)),
        "standby_restart" => Some(Step::Restart(Side::Standby)),
        "hasty" => Some(Step::Hasty),
        "careful" => Some(Step::Careful),
        _ => None,
    }
}

// The words that a number follows.
fn numbered(word: &str, number: u32) -> Option<Step> {
    match word {
        "add" => Some(Step::Add(Side::Active, number)),
        "standby_add" => Some(Step::Add(Side::Standby, number)),
        "deliver" => Some(Step::Deliver(number)),
        "answer" => Some(Step::Answer(number)),
        "stock" => Some(Step::Stock(number)),
        _ => None,
    }
}

// The number that digits stand for; none where they are none, or it is 0 or above 9999. `parse` takes a sign too, which no number of a script has.
fn decimal(text: &str) -> Option<u32> {
    if text.starts_with('+') {
        return None;
    }
    text.parse::<u32>().ok().filter(|n| (1..=9999).contains(n))
}

// The step that a line holds; none where its number is missing, is none or is out of range.
pub fn read(line: &str) -> Option<Step> {
    match line.split_once(' ') {
        None => plain(line),
        Some((word, number)) => numbered(word, decimal(number)?),
    }
}
