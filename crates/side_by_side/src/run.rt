//! All jobs of a list.
ghost use Rattle.std.specs.Prelude.{◌≡◌, ◌+◌, ◌≤◌, ◌++◌, ◌∷◌, [], length};
ghost use Rattle.std.specs.Vec.{vec_capacity};
ghost use Rattle.std.specs.Thread.{IsSync, IsSend};
ghost use Rattle.std.specs.List.{All};
ghost use Rattle.side_by_side.specs.Sides.{Pairs};

use std::thread;
use std::thread::Threads;

/// The last job in a thread of its own, or last where none can be made, and the others from here.
#[tactic(auto, using(crate::proofs::Forking::pairs_grow))]
#[cycle(jobs)]
fn with_others<J: Send + Drop, X: Send + Drop, F: Fn(J) -> X + Sync, R: Threads + Sync>(
    rt: &R,
    f: &F,
    job: J,
    jobs: Vec<J>,
    done: Vec<X>,
) -> Vec<X>
    requires job { F.pre f.now job }
    requires jobs { All (F.pre f.now) jobs.items }
    requires room { (done.items ≡ []) × (length jobs.items + 1 ≤ vec_capacity done) }
    ensures did { Pairs (F.post f.now) (jobs.items ++ job ∷ []) result.items }
    ensures all { length result.items ≡ length jobs.items + 1 }
    ensures room { vec_capacity result ≡ vec_capacity done }
{
    let (last, mut all) = thread::join(
        rt,
        move || -> X
            requires { F.pre f.now job }
            ensures { F.post f.entry.now job result }
        { f(job) },
        move || -> Vec<X>
            requires { IsSync R.row × IsSync F.row × IsSend J.row × IsSend X.row
                × All (F.pre f.now) jobs.items × (done.items ≡ []) × (length jobs.items + 1 ≤ vec_capacity done) }
            ensures { Pairs (F.post f.entry.now) jobs.items result.items
                × (length result.items ≡ length jobs.items) × (vec_capacity result ≡ vec_capacity done) }
        { run_all(rt, f, jobs, done) },
    );
    all.push_reserved(last);
    all
}

/// Calls `f` with each job, in a thread of its own where one can be made, and puts what each call gives into `done`, in the
/// order of the jobs. The last job's thread is made first; where one can't be made, its job is done after all others. It comes
/// back once all jobs are done, and takes no memory.
#[tactic(auto, using(crate::proofs::Forking::pairs_none, crate::proofs::Forking::pairs_all))]
#[cycle(jobs)]
pub fn run_all<J: Send + Drop, X: Send + Drop, F: Fn(J) -> X + Sync, R: Threads + Sync>(
    rt: &R,
    f: &F,
    jobs: Vec<J>,
    done: Vec<X>,
) -> Vec<X>
    requires jobs { All (F.pre f.now) jobs.items }
    requires room { (done.items ≡ []) × (length jobs.items ≤ vec_capacity done) }
    // The first result is the first job's, and so on: each is as the closure promises for its job.
    ensures did { Pairs (F.post f.now) jobs.items result.items }
    ensures all { length result.items ≡ length jobs.items }
    ensures room { vec_capacity result ≡ vec_capacity done }
{
    let mut jobs = jobs;
    match jobs.pop() {
        None => done,
        Some(job) => with_others(rt, f, job, jobs, done),
    }
}
