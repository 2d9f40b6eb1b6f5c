use crate::printing::{DecidedLines, PlanLines};
use crate::reading::{Block, Typed};
use crate::undecided::Undecided;
use categories::plan::Plan;
use comparison::comparing::compare;
use comparison::premises::Refused;
use decision::deciding::decide;
use decision::outcome::{Decision, Fault};
use findings::consequences::{Consequences, Subject};
use lots::planning::{package_mav, plan_lot};
use std::alloc::{AllocError, Global};

fn print_undecided(rt: &impl Print, why: Undecided) -> anyhow::Result<()> {
    Ok(println!(rt; "no decision: {why}")?)
}

// The MAV of each package of the sample; none where a label is out of range, or the labels are not one for each package of a random
// lot and none elsewhere.
fn mavs_of(
    heap: Global,
    typed: Typed,
    labels: &[u32],
    sample: u32,
) -> Result<Option<Vec<(u64, u16)>>, AllocError> {
    let lot = typed.lot;
    let labeled = if lot.label.is_none() {
        sample as usize
    } else {
        0
    };
    if labels.len() != labeled {
        return Ok(None);
    }
    (0..sample as usize)
        .map(|i| {
            let label = lot.label.or(labels.get(i).copied())?;
            package_mav(&typed.kind, lot.division, label)
        })
        .collect(heap)
}

// The sample that a plan draws of a lot: the MAV of each package, and how many base units a division has.
#[derive(Clone, Copy)]
struct Sample<'a> {
    mavs: &'a [(u64, u16)],
    division: u32,
    plan: Plan,
}

impl<'a> Sample<'a> {
    fn print(&self, rt: &impl Print, errors: &[i32], decision: Decision) -> anyhow::Result<()> {
        let lines = DecidedLines {
            errors,
            mavs: self.mavs,
            division: self.division,
            decision,
        };
        Ok(println!(rt; "{lines}")?)
    }

    fn refuse(&self, rt: &impl Print, fault: Fault) -> anyhow::Result<()> {
        print_undecided(rt, Undecided::Sample(fault, self.plan.sample))
    }

    fn decide(&self, rt: &impl Print, errors: &[i32]) -> anyhow::Result<()> {
        match decide(errors, self.mavs, self.division, self.plan.rule) {
            Ok(decision) => self.print(rt, errors, decision),
            Err(fault) => self.refuse(rt, fault),
        }
    }

    fn compare(&self, rt: &impl Print, first: &[i32], second: &[i32]) -> anyhow::Result<()> {
        match compare(first, second, self.mavs, self.division, self.plan.rule) {
            Ok(comparison) => {
                println!(rt; "first list")?;
                self.print(rt, first, comparison.first)?;
                println!(rt; "second list")?;
                self.print(rt, second, comparison.second)?;
                let said = Consequences {
                    subject: Subject::Lists,
                    premises: comparison.premises,
                };
                Ok(println!(rt; "{said}")?)
            }
            Err(Refused::First(fault)) => self.refuse(rt, fault),
            Err(Refused::Second(fault)) => {
                println!(rt; "second list")?;
                self.refuse(rt, fault)
            }
        }
    }
}

fn work_lot(
    rt: &(impl Print + AllocGlobal),
    block: &Block,
    typed: Typed,
    plan: Plan,
) -> anyhow::Result<()> {
    let lines = PlanLines {
        line: typed.line,
        plan,
    };
    println!(rt; "{lines}")?;
    let Some(mavs) = mavs_of(rt.alloc(), typed, block.labels.as_slice(), plan.sample)? else {
        return print_undecided(rt, Undecided::Labels);
    };
    let sample = Sample {
        mavs: mavs.as_slice(),
        division: typed.lot.division,
        plan,
    };
    match (&block.first, &block.second) {
        (None, _) => print_undecided(rt, Undecided::NoErrors),
        (Some(errors), None) => sample.decide(rt, errors.as_slice()),
        (Some(first), Some(second)) => sample.compare(rt, first.as_slice(), second.as_slice()),
    }
}

// The lot of a block and its plan; none where the block is empty.
fn planned(block: &Block) -> Result<Option<(Typed, Plan)>, Undecided> {
    if let Some((line, wrong)) = block.wrong {
        return Err(Undecided::Line(line, wrong));
    }
    let Some(typed) = block.typed else {
        if block.first.is_some() || !block.labels.is_empty() {
            return Err(Undecided::NoLot);
        }
        return Ok(None);
    };
    let plan = plan_lot(&typed.category, &typed.kind, typed.lot).map_err(|fault| Undecided::Lot(
        typed.line, fault,
    ))?;
    Ok(Some((typed, plan)))
}

// Decides the lot of a block, or says why it is not decided.
pub(crate) fn work(rt: &(impl Print + AllocGlobal), block: &Block) -> anyhow::Result<()> {
    match planned(block) {
        Ok(None) => Ok(()),
        Ok(Some((typed, plan))) => work_lot(rt, block, typed, plan),
        Err(why) => print_undecided(rt, why),
    }
}
