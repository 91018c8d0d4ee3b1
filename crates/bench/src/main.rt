//! The program `bench`: fills a plan of side 1024 from a fixed generator, draws windows from it, and prints the totals.
//!
//! Its first argument is the number of marks. With the second argument `time` it also prints the microseconds of a draw.
#![tactic(auto)]

ghost use Rattle.std.specs.Prelude.{◌≡◌, ◌+◌, ◌*◌, ◌/◌, ◌%◌, ◌^◌, ◌<◌, ◌≤◌};

use boxtree::mark::Mark;
use boxtree::window::Window;
use draw::{DrawRefusal, Drawn, Entry, draw};
use grade::points::Points;
use numbers::Numbers;
use plan::{Place, Plan};
use std::time::Instant;
use std::{env, io};

// The level of the plan.
const LEVEL: u32 = 10;

// Its side, 2 to the power of the level.
const SIDE: u16 = 1024;

// How many places the plan and the queue have.
const PLACES: usize = 65_535;

// The sides of the windows, and how many marks are drawn of each.
const SIDES: [u16; 4] = [10, 100, 1000, SIDE];

const COUNTS: [u16; 3] = [1, 10, 100];

// How many places the list has.
const LONGEST: usize = 100;

// How many windows are drawn for each side and each number of marks.
const WINDOWS: u32 = 2_000;

// The grade with which memory is filled before it is lent.
const NONE: Points = Points { value: 0 };

// The next number modulo `bound`.
fn below(numbers: &mut Numbers, bound: u32) -> u16
    requires { (0 < bound) × (bound ≤ 65536) }
    ensures value { result ≡ (numbers.new.state / 2 ^ 33) % bound }
    ensures state { numbers.new.state ≡ (numbers.old.state * 6364136223846793005 + 1442695040888963407) % 2 ^ 64 }
{
    (numbers.next() % bound) as u16
}

// What a line of the benchmark tells of: windows of `side` by `side` cells, drawn with `k` marks each.
#[derive(Clone, Copy)]
struct Task {
    side: u16,
    k: u16,
    ghost inside: { (0 < side) × (side ≤ 1024) },
    ghost listable: { k ≤ 100 },
}

impl Task {
    // The numbers that place the windows.
    fn numbers(self) -> Numbers {
        Numbers::new(99 + u64::from(self.side) * 1000 + u64::from(self.k))
    }

    // A window, where the numbers put it; one that is as large as the plan has one place only.
    fn window(self, numbers: &mut Numbers) -> Window {
        let (top, left) = if self.side < SIDE {
            let free = u32::from(SIDE - self.side);
            (below(numbers, free), below(numbers, free))
        } else {
            (0, 0)
        };
        Window {
            top,
            left,
            bottom: top + (self.side - 1),
            right: left + (self.side - 1),
        }
    }
}

// What some draws come to.
#[derive(Clone, Copy, Default)]
struct Totals {
    listed: u64,
    sum: u64,
    opened: u64,
}

impl Totals {
    // Adds a draw, whose marks stand in the first places of the list.
    fn add(&mut self, drawn: Drawn, list: &[Mark<Points>]) {
        self.listed = self.listed.wrapping_add(drawn.listed as u64);
        self.opened = self.opened.wrapping_add(u64::from(drawn.opened));
        for mark in list.iter().take(drawn.listed) {
            self.sum = self.sum.wrapping_add(u64::from(mark.grade.value));
        }
    }
}

fn main(rt: HostRuntime) -> io::Result<()> {
    let mut words = env::args(&rt)?;
    words.next();
    let Some(marks) = words
        .next()
        .and_then(|word| word.as_str().parse::<u16>().ok())
    else {
        return usage(&rt);
    };
    let timed = match words.next() {
        None => false,
        Some(word) if word.as_str() == "time" => true,
        Some(_) => return usage(&rt),
    };
    // Arrays and no `Vec`: the program allocates nothing.
    let mut places = [Place::vacant(NONE); PLACES];
    let mut plan = Plan::open(LEVEL, &mut places);
    fill(&mut plan, usize::from(marks));
    report_all(&rt, &plan, timed)
}

fn usage(rt: &HostRuntime) -> io::Result<()> {
    eprintln!(rt;
        "bench: give the number of marks, 0 to 65535, and if draws shall be timed the word time"
    )?;
    Err(io::ErrorKind::InvalidInput.into())
}

// Enters marks until there are so many. A cell that is marked already is passed over.
fn fill(plan: &mut Plan<Points>, marks: usize) {
    let mut numbers = Numbers::new(20_261_117);
    // Turns are counted so that the loop is seen to end; the numbers fill a plan long before they are over.
    for _ in 0..u32::MAX {
        if plan.marks() >= marks {
            break;
        }
        let row = below(&mut numbers, u32::from(SIDE));
        let col = below(&mut numbers, u32::from(SIDE));
        let grade = Points {
            value: below(&mut numbers, 65_536),
        };
        let _ = plan.enter(Mark { row, col, grade });
    }
}

// Draws for each side and each number of marks, and prints what the draws come to. The queue is a local of its own function: beside
// the places it would be filled twice.
fn report_all(rt: &HostRuntime, plan: &Plan<Points>, timed: bool) -> io::Result<()> {
    let mut queue = [Entry::vacant(NONE); PLACES];
    let none = Mark {
        row: 0,
        col: 0,
        grade: NONE,
    };
    let mut bench = Bench {
        plan,
        queue: &mut queue,
        list: [none; LONGEST],
    };
    for side in SIDES {
        for k in COUNTS {
            bench.report(rt, Task { side, k }, timed)?;
        }
    }
    Ok(())
}

// A plan, and the memory in which windows of it are drawn.
#[derive(Drop)]
struct Bench<'a> {
    plan: &'a Plan<'a, Points>,
    queue: &'a mut [Entry<Points>],
    list: [Mark<Points>; LONGEST],
}

impl Bench<'_> {
    // Draws the windows of a task, and prints what the draws come to, and the time of a draw if it is asked for: a word of the
    // command line, which stands beside no value.
    fn report(&mut self, rt: &HostRuntime, task: Task, timed: bool) -> io::Result<()> {
        let start = Instant::now(rt)?;
        let Ok(totals) = self.draw_all(task) else {
            eprintln!(rt; "bench: a draw was refused")?;
            return Err(io::ErrorKind::Other.into());
        };
        let time = start.elapsed(rt)?;
        print!(rt;
            "w {} k {} listed {} sum {} opened {}",
            task.side, task.k, totals.listed, totals.sum, totals.opened
        )?;
        if timed {
            let tenths = time.as_micros() * 10 / u128::from(WINDOWS);
            print!(rt; " microseconds {}.{}", tenths / 10, tenths % 10)?;
        }
        println!(rt)
    }

    // What the draws come to.
    fn draw_all(&mut self, task: Task) -> Result<Totals, DrawRefusal> {
        let mut numbers = task.numbers();
        let mut totals = Totals::default();
        let plan = self.plan;
        let queue = &mut *self.queue;
        // The whole list first: a part of a field that is an array is not lent as such.
        let places = &mut self.list[..];
        let list = &mut places[..usize::from(task.k)];
        for _ in 0..WINDOWS {
            let drawn = draw(plan, task.window(&mut numbers), queue, list)?;
            totals.add(drawn, list);
        }
        Ok(totals)
    }
}
