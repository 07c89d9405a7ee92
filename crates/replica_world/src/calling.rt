// The calls of a replica of a world.
ghost use Rattle.std.specs.Prelude.{◌≡◌, [], IfOk, IfErr, OnErr, IsOkUnless};
ghost use Rattle.replica_model.specs.Step as step;
ghost use Rattle.replica_model.specs.Step.{Do};
ghost use Rattle.replica_core.specs.Stepping.{Steps, Stays, IsRefused};
ghost use Rattle.replica_core.specs.Writing.{answer_of, call_of, call_value};
ghost use Rattle.replica_world.specs.Happening.{answer_value};
ghost use Rattle.replica_world.specs.Keeping.{MakesCall};

use crate::answer::Answer;
use crate::posted::Posted;
use dots::{Name, Refusal};
use hash_path::PathHash;
use replica_core::{Call, Replica, Write, Wrote};
use std::alloc::Allocator;
use sync_protocol::Outbox;
use wire_form::Message;

// Makes a call of a replica, and posts what it sends. A refused one changes nothing.
pub(crate) fn make<H: PathHash, A: Allocator + Copy>(
    alloc: A,
    replica: &mut Replica<H, A>,
    posted: &mut Posted<A>,
    call: &Call<A>,
) -> Result<Answer, Refusal>
    ensures ok { IfOk result (λ answer. MakesCall H.hash_of replica.old replica.new (call_value call.now) (answer_value answer) posted.old posted.new) }
    ensures refused { IfErr result (IsRefused replica.old (call_value call.now)) }
    ensures unchanged { OnErr result (Stays replica.old replica.new) }
    ensures unposted { OnErr result (posted.new ≡ posted.old) }
{
    match call {
        Call::Put(key, field, value) => write(replica, &Write::Put(key, field, value)),
        Call::Remove(key) => write(replica, &Write::Remove(key)),
        Call::RemoveField(key, field) => write(replica, &Write::RemoveField(key, field)),
        Call::Clear => write(replica, &Write::Clear),
        Call::Flush => flush(replica, posted),
        Call::Ask(peer) => ask(replica, posted, *peer),
        Call::Retry(number) => retry(alloc, replica, posted, *number),
        Call::Abandon(number) => Ok(Answer::Closed(replica.abandon(*number))),
    }
}

// Makes a write.
fn write<H: PathHash, A: Allocator + Copy>(
    replica: &mut Replica<H, A>,
    made: &Write<'_, A>,
) -> Result<Answer, Refusal>
    ensures ok { IfOk result (λ answer. Steps H.hash_of replica.old replica.new (Do (call_of made.now)) (answer_value answer) []) }
    ensures refused { IfErr result (IsRefused replica.old (call_of made.now)) }
    ensures unchanged { OnErr result (Stays replica.old replica.new) }
{
    match replica.write(made) {
        Ok(wrote) => Ok(answer_to(wrote)),
        Err(refusal) => Err(refusal),
    }
}

// What a write is answered in a world.
fn answer_to(wrote: Wrote) -> Answer
    ensures { answer_value result ≡ answer_of wrote }
{
    match wrote {
        Wrote::Made(dot) => Answer::Dot(dot),
        Wrote::Counted(number) => Answer::Count(number),
    }
}

fn flush<H: PathHash, A: Allocator + Copy>(
    replica: &mut Replica<H, A>,
    posted: &mut Posted<A>,
) -> Result<Answer, Refusal>
    ensures ok { IfOk result (λ answer. MakesCall H.hash_of replica.old replica.new step.Flush (answer_value answer) posted.old posted.new) }
    ensures refused { IsOkUnless result Refusal.OutOfMemory }
    ensures unchanged { OnErr result (Stays replica.old replica.new) }
    ensures unposted { OnErr result (posted.new ≡ posted.old) }
{
    match replica.flush_to(posted) {
        Ok(sent) => {
            drop(sent);
            Ok(Answer::Nothing)
        }
        Err(refusal) => Err(refusal),
    }
}

fn ask<H: PathHash, A: Allocator + Copy>(
    replica: &mut Replica<H, A>,
    posted: &mut Posted<A>,
    peer: Name,
) -> Result<Answer, Refusal>
    ensures ok { IfOk result (λ answer. MakesCall H.hash_of replica.old replica.new (step.Ask peer) (answer_value answer) posted.old posted.new) }
    ensures refused { IfErr result (IsRefused replica.old (step.Ask peer)) }
    ensures unchanged { OnErr result (Stays replica.old replica.new) }
    ensures unposted { OnErr result (posted.new ≡ posted.old) }
{
    match replica.ask_to(peer, posted) {
        Ok(asked) => Ok(Answer::Number(number_of(asked))),
        Err(refusal) => Err(refusal),
    }
}

// The number of a synchronisation that was opened; its hello was posted.
fn number_of<A: Allocator + Copy>(asked: (u64, Message<A>)) -> u64
    ensures { result ≡ asked.0 }
{
    let (number, hello) = asked;
    drop(hello);
    number
}

fn retry<H: PathHash, A: Allocator + Copy>(
    alloc: A,
    replica: &Replica<H, A>,
    posted: &mut Posted<A>,
    number: u64,
) -> Result<Answer, Refusal>
    ensures ok { IfOk result (λ answer. MakesCall H.hash_of replica.now replica.now (step.Retry number) (answer_value answer) posted.old posted.new) }
    ensures refused { IsOkUnless result Refusal.OutOfMemory }
    ensures unposted { OnErr result (posted.new ≡ posted.old) }
{
    let told = replica.retry(number)?;
    match posted.post_all(alloc, told.replies.as_slice()) {
        Ok(()) => {
            let outcome = told.outcome;
            drop(told);
            Ok(Answer::Outcome(outcome))
        }
        Err(refusal) => {
            drop(told);
            Err(refusal)
        }
    }
}
