// Outlines open at the cutter, served by turns (document 02, request k). A state goes in by value and comes back; nothing is allocated.
#![tactic(auto)]

ghost use Rattle.std.specs.Prelude.{◌≡◌, ◌++◌, ◌+◌, ◌<◌, length, take, drop, option_to_list};
ghost use Rattle.serving.specs.Queue.{is_open, lists, after_serving};
ghost use Rattle.serving.specs.States.{queue_of, state_of, in_sixteen};
ghost use Rattle.serving.specs.Promise.{Opening, Turning};
ghost use Rattle.serving.specs.Answers.{opening_answer, turn_answer};

use answers::Cause;

// An open outline: its cycle, and how many of its corners were handed out.
#[repr(C)]
#[derive(Clone, Copy)]
pub struct OpenOutline {
    pub cycle: u32,
    pub handed: u32,
}

// What stands in an unused place.
const UNUSED: OpenOutline = OpenOutline {
    cycle: 0,
    handed: 0,
};

// The outlines that are open, from the front to the back: those in the first `length` places, eight at most.
#[repr(C)]
#[derive(Clone, Copy)]
pub struct State {
    pub outlines: [OpenOutline; 8],
    pub length: u32,
}

impl State {
    // The open outlines.
    fn queue(&self) -> &[OpenOutline]
        ensures { result.now ≡ queue_of self.now }
    {
        &self.outlines[..(self.length as usize).min(8)]
    }

    // The state in which these are open, with one more at the back if there is one.
    fn of(queue: &[OpenOutline], last: Option<OpenOutline>) -> State
        requires { length queue.now < 8 }
        ensures { result ≡ state_of (queue.now ++ option_to_list last) }
    {
        let mut outlines = [UNUSED; 8];
        outlines[..queue.len()].copy_from_slice(queue);
        let mut length = queue.len();
        if let Some(outline) = last {
            outlines[length] = outline;
            length += 1;
        }
        State {
            outlines,
            length: length as u32,
        }
    }
}

// A turn that served an outline: how many corners it handed out, of which cycle, these corners, and the state.
#[derive(Clone, Copy)]
pub struct Served {
    pub count: u32,
    pub cycle: u32,
    pub places: [u32; 16],
    pub state: State,
}

// What an opening answers C: its number, 0 for acceptance, and the state.
#[repr(C)]
#[derive(Clone, Copy)]
pub struct Opened {
    pub number: u32,
    pub state: State,
}

impl Opened {
    // The answer of an opening in a state, which a refusal leaves as it was.
    pub fn of(state: State, outcome: Result<State, Cause>) -> Opened
        ensures { result ≡ opening_answer state outcome }
    {
        match outcome {
            Ok(state) => Opened { number: 0, state },
            Err(cause) => Opened {
                number: u32::from(cause),
                state,
            },
        }
    }
}

// What a turn answers C: whether one was served, how many corners were handed out, of which cycle, these corners, and the state.
#[repr(C)]
#[derive(Clone, Copy)]
pub struct Turned {
    pub served: bool,
    pub count: u32,
    pub cycle: u32,
    pub places: [u32; 16],
    pub state: State,
}

impl Turned {
    // The answer of a turn in a state, which stays as it was where none is open.
    pub fn of(state: State, turn: Option<Served>) -> Turned
        ensures { result ≡ turn_answer state turn }
    {
        match turn {
            Some(turn) => {
                let places = turn.places;
                Turned {
                    served: true,
                    count: turn.count,
                    cycle: turn.cycle,
                    places,
                    state: turn.state,
                }
            }
            None => Turned {
                served: false,
                count: 0,
                cycle: 0,
                places: [0; 16],
                state,
            },
        }
    }
}

// Whether a cycle is open in a queue.
fn is_open(queue: &[OpenOutline], cycle: u32) -> bool
    ensures { result ≡ is_open cycle queue.now }
{
    queue.iter().any(|outline| outline.cycle == cycle)
}

// Opens a cycle, where `count` is the number of cycles: it joins at the back.
pub fn open_cycle(state: State, cycle: u32, count: u32) -> Result<State, Cause>
    ensures { Opening state cycle count (opening_answer state result) }
{
    if count <= cycle {
        return Err(Cause::NoSuchCycle);
    }
    let queue = state.queue();
    if is_open(queue, cycle) {
        return Err(Cause::AlreadyOpen);
    }
    if 8 <= queue.len() {
        return Err(Cause::EightOpen);
    }
    Ok(State::of(queue, Some(OpenOutline { cycle, handed: 0 })))
}

// The corners of a stretch that are due after those that were handed out.
fn still_due(stretch: &[u32], handed: u32) -> &[u32]
    ensures { result.now ≡ drop handed stretch.now }
{
    stretch.get(handed as usize..).unwrap_or(&[])
}

// The first of the corners that are due, in sixteen places; all others are 0.
fn hand_out(due: &[u32]) -> [u32; 16]
    ensures { result ≡ in_sixteen (take 16 due.now) }
{
    let given = due.len().min(16);
    let mut places = [0u32; 16];
    places[..given].copy_from_slice(&due[..given]);
    places
}

// The state after the front was served, of which so many corners were due: it goes behind the others if more is due, else it closes.
fn after_serving(served: OpenOutline, others: &[OpenOutline], due: usize) -> State
    requires { (length others.now < 8) × (16 < due → served.handed + 16 < 4294967296) }
    ensures { result ≡ state_of (after_serving due served others.now) }
{
    let back = if 16 < due {
        Some(OpenOutline {
            cycle: served.cycle,
            handed: served.handed + 16,
        })
    } else {
        None
    };
    State::of(others, back)
}

// A turn: the front is served, with the lists and the count of cycles that are lent for it. None is where none is open.
pub fn turn(state: State, corners: &[u32], ends: &[u32], count: u32) -> Option<Served>
    ensures { Turning state (lists corners.now ends.now count) (turn_answer state result) }
{
    let (front, others) = state.queue().split_first()?;
    let stretch = stretches::cycle(corners, ends, count, front.cycle);
    let due = still_due(stretch, front.handed);
    Some(Served {
        count: due.len().min(16) as u32,
        cycle: front.cycle,
        places: hand_out(due),
        state: after_serving(*front, others, due.len()),
    })
}
