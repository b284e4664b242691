//! That the numbers of an entry are within their types, as facts for what follows. Each call reads what it is given, and does nothing.
ghost use Rattle.std.specs.Prelude.{◌^◌, ◌<◌, length, option_copied};
ghost use Rattle.std.specs.List.{AllByRecursion};
ghost use Rattle.ks_record.specs.Bytes.{IsBytes};
ghost use Rattle.ks_record.specs.Records.{record_seen, rec_of_list};
ghost use Rattle.ks_journal.specs.Fits.{FitsTask, FitsPart, FitsBytes, FitsRec, FitsPair, FitsPlace, FitsRequest, FitsRefusal, FitsReply};

use ks_history::{Reply, Request};
use ks_record::{PartId, Rec, RecordRef, Refused, SharedRecords, TaskId};

fn task_fits(task: TaskId)
    ensures { FitsTask task }
{
    let _numbers = (task.sub, task.part);
}

fn part_fits(part: PartId)
    ensures { FitsPart part }
{
    let _numbers = (part.topic, part.part);
}

fn slice_is_bytes(bytes: &[u8])
    ensures { IsBytes bytes.now }
{}

fn bytes_fit(bytes: Option<&[u8]>)
    ensures { FitsBytes (option_copied bytes.entry) }
{
    if let Some(bytes) = bytes {
        slice_is_bytes(bytes);
    }
}

fn seen_fits(rec: RecordRef<'_>)
    ensures { FitsRec (record_seen rec.entry) }
{
    bytes_fit(rec.key);
    bytes_fit(rec.value);
    let _time = rec.ts;
}

fn rec_fits(rec: &Rec)
    ensures { FitsRec rec.now }
{
    seen_fits(rec.as_ref());
}

fn place_of_fits(recs: &SharedRecords, place: usize)
    requires { place < length recs.now }
    ensures { FitsRec (rec_of_list recs.now place) }
{
    seen_fits(recs.get(place));
}

fn recs_fit(recs: &SharedRecords)
    ensures { AllByRecursion FitsRec recs.now }
{
    for place in 0..recs.len() {
        place_of_fits(recs, place);
    }
}

fn pair_fits(pair: (u16, u64))
    ensures { FitsPair pair }
{
    let _numbers = (pair.0, pair.1);
}

fn pairs_fit(pairs: &[(u16, u64)])
    ensures { AllByRecursion FitsPair pairs.now }
{
    let mut rest = pairs;
    while let [first, more @ ..] = rest {
        pair_fits(*first);
        rest = more;
    }
}

fn held_fits(held: (TaskId, u64))
    ensures { FitsPlace (2 ^ 64) held }
{
    task_fits(held.0);
    let _position = held.1;
}

fn all_held_fit(held: &[(TaskId, u64)])
    ensures { AllByRecursion (FitsPlace (2 ^ 64)) held.now }
{
    let mut rest = held;
    while let [first, more @ ..] = rest {
        held_fits(*first);
        rest = more;
    }
}

fn place_fits(place: (TaskId, u8))
    ensures { FitsPlace 256 place }
{
    task_fits(place.0);
    let _worker = place.1;
}

fn places_fit(places: &[(TaskId, u8)])
    ensures { AllByRecursion (FitsPlace 256) places.now }
{
    let mut rest = places;
    while let [first, more @ ..] = rest {
        place_fits(*first);
        rest = more;
    }
}

/// The numbers of a request are within their types.
pub(crate) fn request_fits(request: &Request)
    ensures { FitsRequest request.now }
{
    match request {
        Request::Produce { part, rec } => {
            part_fits(*part);
            rec_fits(rec);
        }
        Request::Init { w } => {
            let _w = *w;
        }
        Request::Add { w, epoch, part } => {
            let _numbers = (*w, *epoch);
            part_fits(*part);
        }
        Request::Append {
            w,
            epoch,
            number,
            task,
            part,
            recs,
        } => {
            let _numbers = (*w, *epoch, *number);
            task_fits(*task);
            part_fits(*part);
            recs_fit(recs);
        }
        Request::SendOffsets {
            w,
            epoch,
            generation,
            task,
            offsets,
            order,
            late,
        } => {
            let _numbers = (*w, *epoch, *generation, *late);
            task_fits(*task);
            pairs_fit(offsets.as_slice());
            pairs_fit(order.as_slice());
        }
        Request::Decide { w, epoch, .. } => {
            let _numbers = (*w, *epoch);
        }
        Request::MarkNext { w } => {
            let _w = *w;
        }
        Request::Join { w } => {
            let _w = *w;
        }
        Request::Expire { w } => {
            let _w = *w;
        }
        Request::Hold { w, held } => {
            let _w = *w;
            all_held_fit(held.as_slice());
        }
        Request::Probe { w, generation } => {
            let _numbers = (*w, *generation);
        }
        Request::Assign { w, generation, a } => {
            let _numbers = (*w, *generation);
            places_fit(a.active.as_slice());
            places_fit(a.standby.as_slice());
            places_fit(a.warmup.as_slice());
        }
        Request::Park { instance, task } => {
            let _instance = *instance;
            task_fits(*task);
        }
        Request::Unpark { instance, task } => {
            let _instance = *instance;
            task_fits(*task);
        }
    }
}

fn refusal_fits(refused: Refused)
    ensures { FitsRefusal refused }
{
    match refused {
        Refused::OutOfSequence { expected } => {
            let _number = expected;
        }
        Refused::Fenced { held } => {
            let _number = held;
        }
        Refused::AlreadyDecided { .. } => {}
        Refused::NoTransaction => {}
        Refused::OldGeneration { now } => {
            let _number = now;
        }
        Refused::NotAssigned { owner } => {
            if let Some(w) = owner {
                let _w = w;
            }
        }
        Refused::Unstable { producer } => {
            let _number = producer;
        }
        Refused::MarkersWaiting { left } => {
            let _number = left;
        }
        Refused::BadAssignment { task } => task_fits(task),
    }
}

/// The numbers of a reply are within their types.
pub(crate) fn reply_fits(reply: &Reply)
    ensures { FitsReply reply.now }
{
    match reply {
        Reply::Done => {}
        Reply::Number(number) => {
            let _number = *number;
        }
        Reply::Truth(_) => {}
        Reply::Mark(mark) => {
            if let Some(mark) = mark {
                part_fits(mark.0);
            }
        }
        Reply::Refused(refused) => refusal_fits(*refused),
    }
}
