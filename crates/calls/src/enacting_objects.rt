// What a call changes in the object table once it was answered OK. As in enacting.rt, nothing is judged here: any call on any table changes exactly what
// applying/specs/Apply.antt says, and behind the table's end nothing is stored. Promised: the table after is `enact_objects` of the call's change.
#![tactic(auto, unfolding(applying::specs::Apply::enact_in, applying::specs::Apply::object_after, applying::specs::Apply::whole_after, applying::specs::Apply::flags_after, applying::specs::Apply::loser, applying::specs::Apply::ended, judging::specs::Change::object_change))]

ghost use Rattle.std.specs.Prelude.{◌≡◌};
ghost use Rattle.userspace.specs.Userspace.{granted, revoked, recycled};
ghost use Rattle.tables.specs.Table.{HANDLES as HANDLES·spec, object_at, put_object};
ghost use Rattle.decoding.specs.Calls.{named};
ghost use Rattle.judging.specs.Change.{inherited, object_change};
ghost use Rattle.applying.specs.Apply.{each_to, enact_objects, object_after, whole_after, flags_after, loser, ended};

use decoding::{Call, Operation};
use tables::HANDLES;
use userspace::KernelObject;

// ---- one object. No call that was answered OK names a thread that the leaf refuses, so what it answers is not asked.

fn give(o: &mut KernelObject, t: u32)
    ensures { o.new ≡ (granted o.old t).object }
{
    let _ = o.grant_access(t);
}

fn take(o: &mut KernelObject, t: u32)
    ensures { o.new ≡ (revoked o.old t).object }
{
    let _ = o.revoke_access(t);
}

fn recycle(o: &mut KernelObject, t: u32)
    ensures { o.new ≡ (recycled o.old t).object }
{
    let _ = o.recycle(t);
}

#[tactic(auto, unfolding(judging::specs::Change::inherited, userspace::specs::Userspace::holds, userspace::specs::Userspace::bit_answer))]
fn bequeath(o: &mut KernelObject, parent: u32, child: u32)
    ensures { o.new ≡ inherited parent child o.old }
{
    if o.has_perm(parent) == Ok(true) {
        give(o, child);
    }
}

// Whose bit release and revoke clear: the caller's own, and that of the thread in b.
fn loser(operation: Operation, c: Call) -> u32
    ensures { result ≡ loser (named operation) c }
{
    match operation {
        Operation::Release => c.caller,
        _ => c.b,
    }
}

// Who ends by end and by exit: the thread in b, and the caller.
fn ended(operation: Operation, c: Call) -> u32
    ensures { result ≡ ended (named operation) c }
{
    match operation {
        Operation::End => c.b,
        _ => c.caller,
    }
}

// Create and delete leave nothing of what was there.
fn make_anew(o: &mut KernelObject, operation: Operation, c: Call)
    ensures { o.new ≡ whole_after (named operation) c o.old }
{
    match operation {
        Operation::Create => *o = KernelObject::new((c.b % 256) as u8),
        Operation::Delete => *o = KernelObject::default(),
        _ => {}
    }
}

fn set_flags(o: &mut KernelObject, operation: Operation)
    ensures { o.new ≡ flags_after (named operation) o.old }
{
    match operation {
        Operation::Init => o.init_object(),
        Operation::Uninit => o.uninit_object(),
        Operation::MakePublic => o.make_public(),
        _ => {}
    }
}

// What a call makes of an object that it reaches.
fn change(o: &mut KernelObject, operation: Operation, c: Call)
    ensures { o.new ≡ object_after (named operation) c o.old }
{
    match operation {
        Operation::Grant => give(o, c.b),
        Operation::Release => take(o, loser(operation, c)),
        Operation::Revoke => take(o, loser(operation, c)),
        Operation::Exit => take(o, ended(operation, c)),
        Operation::End => take(o, ended(operation, c)),
        Operation::Create => make_anew(o, operation, c),
        Operation::Delete => make_anew(o, operation, c),
        Operation::Init => set_flags(o, operation),
        Operation::Uninit => set_flags(o, operation),
        Operation::MakePublic => set_flags(o, operation),
        Operation::Recycle => recycle(o, c.caller),
        Operation::Inherit => bequeath(o, c.b, c.c),
        _ => {}
    }
}

// ---- objects

fn grant_object(objects: &mut [u64], h: u32, t: u32)
    ensures { objects.new ≡ put_object objects.old h (granted (object_at objects.old h) t).object }
{
    let mut o = object_table::load_object(objects, h);
    give(&mut o, t);
    object_table::store_object(objects, h, o);
}

fn change_object(objects: &mut [u64], h: u32, operation: Operation, c: Call)
    ensures { objects.new ≡ put_object objects.old h (object_after (named operation) c (object_at objects.old h)) }
{
    let mut o = object_table::load_object(objects, h);
    change(&mut o, operation, c);
    object_table::store_object(objects, h, o);
}

// Compiled anew at each call below, for the one operation that stands there: so the pass over 256 objects asks for none.
#[inline(always)]
fn change_each(objects: &mut [u64], operation: Operation, c: Call)
    ensures { objects.new ≡ each_to object_at put_object (object_after (named operation) c) objects.old HANDLES·spec }
{
    for h in 0..HANDLES {
        change_object(objects, h, operation, c);
    }
}

// Grant goes its own short way: it is what threads do most.
pub fn change_objects(objects: &mut [u64], operation: Operation, c: Call)
    ensures { objects.new ≡ enact_objects (object_change (named operation) c) objects.old }
{
    match operation {
        Operation::Grant => grant_object(objects, c.a, c.b),
        Operation::Release
        | Operation::Create
        | Operation::Delete
        | Operation::Revoke
        | Operation::Init
        | Operation::Uninit
        | Operation::Recycle
        | Operation::MakePublic => change_object(objects, c.a, operation, c),
        Operation::Exit => change_each(objects, Operation::Exit, c),
        Operation::End => change_each(objects, Operation::End, c),
        Operation::Inherit => change_each(objects, Operation::Inherit, c),
        _ => {}
    }
}
