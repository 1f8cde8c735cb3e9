//! The help texts of the program and its commands.

/// The help of a command, except the list of the command's arguments. `clap` writes this list.
#[derive(Clone, Copy)]
pub(crate) struct Help {
    /// The position of the command in the list of commands.
    pub(crate) position: usize,
    /// A line that says what the command does.
    pub(crate) about: &'static str,
    /// The usage lines, which list the command's arguments.
    pub(crate) usage: &'static str,
    /// The text after the list of arguments, which describes the input, the answer and the exit
    /// statuses.
    pub(crate) notes: &'static str,
}

pub(crate) const SIZING: Help = Help {
    position: 0,
    about: "\
Find out before a service starts whether its thread pools can reject a task, and whether jobs that
wait for other jobs can deadlock.",
    usage: "sizing <COMMAND>",
    notes: "\
Begin with `sizing ask PLAN`; `sizing ask --help` has an example to paste into a shell.

`ask`, `certify`, `fit` and `refute` read a plan, and `learn` reads a recording. The other commands
read a plan and a second text: `replay` events, `check`, `explain` and `run` a certificate, `conform`
a recording. A text is read from standard input if its file is `-` or not named. A single file, or
standard input, can hold both texts, separated by a line that is exactly `%%`.

Exit status:
  0  yes, or done
  1  no: the plan is not safe, sizes change, a service differs from its plan, or nothing was found
  2  invalid input, invalid arguments, or a run that is too large
  3  out of memory, or an error while reading, writing or starting threads
  4  not decided (`ask`, `conform` and `refute`)",
};

pub(crate) const REPLAY: Help = Help {
    position: 9,
    about: "Replay events on a plan, and print the outcome of each",
    usage: "\
sizing replay PLAN EVENTS
       sizing replay < INPUT",
    notes: "\
The second text has one event per line:
  client N     client N does its next action
  job N        job N does its next action
  take POOL    an idle worker of the pool takes the job at the head of its queue
  retire POOL  an idle worker above the pool's core ends; if core threads may time out, any idle
               worker, but not the last one while jobs are queued
  stuck N ..   asks whether these jobs wait only for each other
Clients are numbered from 0 in the order of the plan: each [[client]] has `count` of them. Jobs are
numbered from 0 in the order in which they are submitted.

The answer has a line for each event, up to the first that is not possible, and then the number of
refused submits, of rejected submits if a pool may reject jobs, and of unfinished jobs.

Exit status:
  0  each event is possible, no submit is refused, and no jobs are stuck
  1  otherwise
  2 or 3 after an error (see `sizing --help`)",
};

pub(crate) const CHECK: Help = Help {
    position: 6,
    about: "Check whether a certificate proves that a plan is safe",
    usage: "\
sizing check PLAN CERTIFICATE
       sizing check < INPUT",
    notes: "\
The answer is `yes` or `no`, and then a line for each pool:
  pool NAME: standing T of Q, blocked T of B
`standing T of Q`: at most T jobs are in the queue at once, and its capacity is Q. A certificate can
have `lifetime T of Q` instead: at most T jobs are ever submitted, and Q of them fit into queue and
threads, or into the queue alone if core threads may time out. `may reject` in its place: the pool
has `may_reject = true`, and no bound for its queue. For an unbounded queue, `unbounded` is in place
of Q, and T need not bound the jobs in the queue; it is in place of all of this if the pool has no
bound.
`blocked T of B`: at most T of the pool's threads wait for jobs that need this pool, and B may. B is
core - 1, or 0 if core threads may time out.

`yes` means that in every state that any order of events reaches, no submit was refused, each pool
respects its maximum and, if its queue has one, the queue's capacity, and no jobs wait only for each
other. (A submit that a pool with `may_reject = true` rejects is not refused, but skipped together
with its get.) `no` means that this certificate does not prove it; `sizing explain` lists the
conditions that fail.

Exit status:
  0  yes
  1  no
  2 or 3 after an error (see `sizing --help`)

Example: sizing certify shop.toml | sizing check",
};

pub(crate) const EXPLAIN: Help = Help {
    position: 7,
    about: "List the conditions of a certificate that fail",
    usage: "\
sizing explain PLAN CERTIFICATE
       sizing explain < INPUT",
    notes: "\
The answer has a line for each condition that fails: its place, its rule, and its two sides, of which
the first must be at most the second. The last line is `failing N` with the number of these lines.

Exit status:
  0  no condition fails, so `sizing check` answers yes
  1  otherwise
  2 or 3 after an error (see `sizing --help`)",
};

pub(crate) const CERTIFY: Help = Help {
    position: 5,
    about: "Search for a certificate that a plan is safe",
    usage: "\
sizing certify [--workers N] PLAN
       sizing certify [--workers N] < PLAN",
    notes: "\
The answer is the plan, a line `%%` and a certificate in JSON, to which `sizing check` answers yes.
Otherwise it is one of these lines:
  no certificate found           none was found; the plan may still be safe
  no certificate: text too long  one was found, and its text would be longer than `check` reads

Exit status:
  0  a certificate was found
  1  none was found, or its text is too long
  2 or 3 after an error (see `sizing --help`)

Example: sizing certify shop.toml | sizing check",
};

pub(crate) const FIT: Help = Help {
    position: 4,
    about: "Find sizes for which a plan has a certificate",
    usage: "\
sizing fit [--bundle] PLAN
       sizing fit [--bundle] < PLAN",
    notes: "\
The answer has a line for each pool:
  pool NAME: core C, max M, queue Q
  pool NAME: core C, queue unbounded
  pool NAME: core C, max M, queue unbounded     if core threads may time out
with `(now X)` after each number that changes, where X is the number in the plan. The last line is
`changes N`, the number of changes. With --bundle the answer is the plan with the new sizes, a line
`%%`, and a certificate, to which `sizing check` answers yes.

No size decreases. For the certificate that was found, no smaller core or maximum will do, and with
these maximums no smaller queue; another certificate may need less.

Otherwise the answer is `no fitting sizes found`, and the reason:
  class NAME submits itself
  client NAME action I: submits without end, and no get waits for these jobs
  class NAME action I: submits without end, and no get waits for these jobs
  pool NAME: its last thread may wait for a job of this pool, since core threads may time out
  pool NAME: sizes above 1000000
With the first four, no sizes have a certificate. With the fifth the search reached the limit for a
size or a weight, nothing gets some jobs of a pool that may reject or has an unbounded queue, or no
client submits a class that has a get, in a pool whose core threads may time out; other sizes may do.
Actions are numbered from 0. With --bundle the answer can also be `no bundle: text too long`.

Exit status:
  0  no size changes, or a bundle was written
  1  sizes change, none were found, or the bundle is too long
  2 or 3 after an error (see `sizing --help`)",
};

pub(crate) const RUN: Help = Help {
    position: 10,
    about: "Run a certified plan on threads, and count its jobs and their units of work",
    usage: "\
sizing run --rounds N PLAN CERTIFICATE
       sizing run --rounds N < INPUT",
    notes: "\
If `sizing check` answers yes, a thread is started for each client, and for each pool as many threads
as it may have, or its core if it has no maximum. Each client that repeats goes through its body N
times, the others once, until all jobs are done. No submit is refused, however the threads are
scheduled. A unit of work is counted and takes no time. A run has at most 64 clients, 64 threads of
pools, and 1000000 events: for each job one per action and 2 more, for each client one per action and
one between two rounds.

The answer is one of these lines:
  jobs N, units N, refused 0   the number of jobs, and the work of clients and jobs
  no                           `sizing check` answers no
  fault 40 RunTooLarge         the run would exceed these limits, or a pool of the plan may reject
                               jobs; it was not started

Exit status:
  0  the plan was run
  1  no
  2 or 3 after an error (see `sizing --help`)",
};

pub(crate) const REFUTE: Help = Help {
    position: 8,
    about: "Search for events that lead to a refused submit or to a deadlock",
    usage: "\
sizing refute [--states N] [--bundle] PLAN
       sizing refute [--states N] [--bundle] < PLAN",
    notes: "\
If a certificate is found, the answer is
  safe: a certificate was found
Otherwise the answer is a witness, if one is found. Its first line says how it ends:
  refused by POOL, after N events of M clients
  stuck forever: J jobs wait only for each other, after N events of M clients
  stuck now: J jobs wait only for each other, after N events of M clients
Then come the steps, where equal steps of several clients are one line, the state of each pool, and
which job waits for which. A plan with a witness has no certificate. A submit that a pool with
`may_reject = true` rejects ends no witness. If none is found, the answer is
  not decided: S states were searched
With --bundle the answer is the plan, a line `%%`, and the events of the witness for `sizing replay`.

Exit status:
  0  a certificate was found, so the plan is safe; with --bundle, a witness was written
  1  a witness was found; with --bundle, none was
  4  not decided; with --bundle that is 1
  2 or 3 after an error (see `sizing --help`)",
};

pub(crate) const ASK: Help = Help {
    position: 1,
    about: "Decide whether a plan is safe, and print the reason or the sizes to change",
    usage: "\
sizing ask [--strict] [--format FORMAT] [--certificate FILE] PLAN [CERTIFICATE]
       sizing ask [--strict] [--format FORMAT] [--certificate FILE] < PLAN",
    notes: "\
CERTIFICATE is one of an earlier run: if it still holds, no other one is searched for.

If the plan is invalid, the answer lists its faults, at most 100:
  shop.toml:17:40: class page, action 2 \"get row\": nothing was submitted as row; did you mean rows?
Otherwise it lists the warnings, and then says
  SAFE         no submit is ever refused, except by a pool with `may_reject = true`, and no jobs
               wait only for each other; how many jobs can wait in the queue of each pool, and who
               submits them
  NOT SAFE     steps that end in a refused submit or in jobs that wait only for each other, and
               sizes that prevent it, or why none were found
  NOT DECIDED  neither was found; sizes that are safe, or why none were found

The values of --format, which excludes --json and --dot:
  text    lines for a person, as above; also without --format
  json    one JSON object on one line, for a program (docs/GUIDE.md lists its keys)
  dot     a picture of the plan, for `dot -Tsvg`
  html    a report for a browser: one page that needs no other file
  github  annotations for a workflow of GitHub Actions
  sarif   a SARIF log, for tools that show the results of analyses

Exit status:
  0  SAFE (with --strict: and no warning; a note is no warning)
  1  NOT SAFE, or with --strict SAFE with a warning
  4  NOT DECIDED
  2 or 3 after an error (see `sizing --help`)

In a build: sizing ask --strict shop.toml (docs/GUIDE.md has the lines for GitHub, GitLab, Jenkins,
Maven and Gradle)

Example, to paste into a shell:

sizing ask <<'END'
[[pool]]
name = \"pages\"
core = 1
max = 1
queue = 2

[[class]]
name = \"render\"
pool = \"pages\"
body = [\"work 1\"]

[[client]]
name = \"browser\"
count = 2
repeat = true
body = [\"submit render as page\", \"get page\"]
END

It answers, with status 0:

SAFE
pages: 1 thread, queue 2: up to 2 jobs wait at once (2 browser)
  pages waits for no pool
no submit is ever refused, and no jobs wait for each other forever",
};

pub(crate) const CONFORM: Help = Help {
    position: 3,
    about: "Compare a recording of a service with its plan",
    usage: "\
sizing conform PLAN RECORDING
       sizing conform < INPUT",
    notes: "\
RECORDING has a line for each event of the service's pools, as the recorder in `java/` writes it
(docs/RECORDING.md).

The answer is `conforms` only if each pool has the sizes of the plan, each job and each round of a
client follows its body (it can skip a submit together with its get, and get alike jobs in any order
and sooner), and at no time more rounds of a kind are open than its `count`. This says nothing of
other runs of the service. Otherwise the answer lists the first difference of each class and kind:
  line 812: job 44 of class order in pool web submitted price to pool db; its body has no such
  submit after get stock
  line 903: kind tomcat: 31 at once, count is 30
  line 3: pool db: max 20, plan 10
and the first line of each kind that invalidates the answer of `ask` for this service:
  line 40: the answer SAFE does not hold after this: job 3 of class price in pool db was refused
For each pool that rejected jobs, as its handler may by the plan, the answer ends with their number:
  pool q rejected 3 jobs, as the plan allows

Exit status:
  0  the recording conforms
  1  it does not, or a line invalidates the answer of `ask`
  4  not decided: a job may belong to several classes that a body submits
  2 or 3 after an error (see `sizing --help`)",
};

pub(crate) const LEARN: Help = Help {
    position: 2,
    about: "Derive a plan from a recording of a service",
    usage: "\
sizing learn [--strict] RECORDING
       sizing learn [--strict] < RECORDING",
    notes: "\
RECORDING has a line for each event of the service's pools, as the recorder in `java/` writes it
(docs/RECORDING.md).

The answer is a plan in TOML: the pools with their recorded sizes, a class for each label of jobs,
and a kind of client for each label of rounds. Each body covers all recorded paths of its label; if
no single body does, there are several classes NAME, NAME_2 and so on. `count` is the largest number
of rounds that were open at once, and a kind repeats if more rounds began in all. A pool that rejected
jobs only as its handler may has `may_reject = true`. Comments at the top list what the plan leaves
out, and what invalidates the answer of `ask` for this service. With --strict only these differences
are written, and no plan.

A path that was not taken, and a pool or class that was not used, is not in the plan. Review the plan
before you rely on it.

Exit status:
  0  a plan was written, and the recording conforms to it
  1  a plan was written whose comments list differences, or none was found, and why
  2 or 3 after an error (see `sizing --help`)

Example: sizing learn shop.recording | sizing ask",
};
