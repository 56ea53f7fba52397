//! What a node tells, in names.

ghost use Rattle.std.specs.Prelude.{◌≡◌, IfOk, Some, None};
ghost use Rattle.std.specs.Option.{option_map};
ghost use Rattle.ch_model.specs.declared.entry.Entry.TheVariants as entries;
ghost use Rattle.ch_model.specs.Naming.{called, process_called, target_called, reference_called, maybe_called};
ghost use Rattle.ch_model.specs.WorldSteps.{note_entry, place_after as place_after_of, or_first as or_first_of};

use crate::names::Names;
use ch_base::{Address, OutOfMemory, Text};
use ch_ident::{Message, Name, ProcessId, Reason, Ref};
use ch_model::{Entry, Note, Origin, Place, RefName};
use ch_static::Target;
use ch_watch::Kind;

/// The place of the message that was last said or read, after a note.
pub fn place_after(last: Option<Place>, note: &Note) -> Option<Place>
    ensures { result ≡ place_after_of last note.now }
{
    match note {
        Note::Said { epoch, index, .. } => Some(Place {
            epoch: *epoch,
            index: *index,
        }),
        _ => last,
    }
}

/// A place, or the first of a pair.
fn or_first(last: Option<Place>) -> Place
    ensures { result ≡ or_first_of last }
{
    match last {
        Some(place) => place,
        None => Place { epoch: 0, index: 0 },
    }
}

fn label_of(origin: &Option<Origin>) -> Result<Option<Name>, OutOfMemory>
    ensures { IfOk result (λ label. label ≡ option_map (λ o. o.label) origin.now) }
{
    match origin {
        None => Ok(None),
        Some(origin) => Ok(Some(origin.label.copy()?)),
    }
}

impl Names {
    /// The entry of a note, where the message last said or read has that place.
    pub fn note_entry(&self, last: Option<Place>, note: &Note) -> Result<Entry, OutOfMemory>
        ensures { IfOk result (λ e. e ≡ note_entry self.now last note.now) }
    {
        match note {
            Note::Made { process, origin } => self.made(process, origin),
            Note::Said {
                by,
                to,
                epoch,
                index,
                message,
            } => self.said(by, to, *epoch, *index, message),
            Note::Again { by, to, epoch } => self.again(by, to, *epoch),
            Note::Got { by, to, receiver } => self.got(by, to, or_first(last), receiver),
            Note::Took { by, port, message } => self.took(by, *port, message),
            Note::Port { port } => Ok(Entry::Port {
                process: self.process_called(&port.process)?,
                port: port.port,
            }),
            Note::Over { process, reason } => self.over(process, reason),
            Note::Doom { process, text } => self.doom(process, text),
            Note::Watch {
                watch,
                by,
                target,
                kind,
            } => self.watch(watch, by, target, *kind),
            Note::Unwatch { watch } => Ok(Entry::Unwatch {
                watch: self.reference_called(watch)?,
            }),
            Note::Absent { watch } => Ok(Entry::Absent {
                watch: self.reference_called(watch)?,
            }),
            Note::Told { watch, reason } => self.told(watch, reason),
            Note::Asked { question, by, at } => self.asked(question, by, at),
            Note::Spawned { question, process } => self.spawned(question, process),
            Note::IsAt { question, found } => self.is_at(question, found),
            Note::Named {
                node,
                name,
                process,
            } => self.stands(node, name, process),
            Note::Shut { node } => Ok(Entry::Shut {
                node: self.called(node)?,
            }),
        }
    }

    fn spawn_of(&self, origin: &Option<Origin>) -> Result<Option<RefName>, OutOfMemory>
        ensures { IfOk result (λ spawn. spawn ≡ option_map (λ o. reference_called self.now o.spawn) origin.now) }
    {
        match origin {
            None => Ok(None),
            Some(origin) => Ok(Some(self.reference_called(&origin.spawn)?)),
        }
    }

    fn made(&self, process: &ProcessId, origin: &Option<Origin>) -> Result<Entry, OutOfMemory>
        ensures { IfOk result (λ e. e ≡ entries.Made (process_called self.now process.now) (option_map (λ o. reference_called self.now o.spawn) origin.now) (option_map (λ o. o.label) origin.now)) }
    {
        Ok(Entry::Made {
            process: self.process_called(process)?,
            spawn: self.spawn_of(origin)?,
            label: label_of(origin)?,
        })
    }

    fn said(
        &self,
        by: &ProcessId,
        to: &Target,
        epoch: u64,
        index: u64,
        message: &Message,
    ) -> Result<Entry, OutOfMemory>
        ensures { IfOk result (λ e. e ≡ entries.Said (process_called self.now by.now) (target_called self.now to.now) epoch index message.now.mark message.now.body) }
    {
        Ok(Entry::Said {
            by: self.process_called(by)?,
            to: self.target_called(to)?,
            epoch,
            index,
            mark: message.mark.copy()?,
            body: message.body.copy()?,
        })
    }

    fn again(&self, by: &ProcessId, to: &Target, epoch: u64) -> Result<Entry, OutOfMemory>
        ensures { IfOk result (λ e. e ≡ entries.Again (process_called self.now by.now) (target_called self.now to.now) epoch) }
    {
        Ok(Entry::Again {
            by: self.process_called(by)?,
            to: self.target_called(to)?,
            epoch,
        })
    }

    fn got(
        &self,
        by: &ProcessId,
        to: &Target,
        place: Place,
        receiver: &Option<ProcessId>,
    ) -> Result<Entry, OutOfMemory>
        ensures { IfOk result (λ e. e ≡ entries.Got (process_called self.now by.now) (target_called self.now to.now) place.epoch place.index (maybe_called self.now receiver.now)) }
    {
        Ok(Entry::Got {
            by: self.process_called(by)?,
            to: self.target_called(to)?,
            epoch: place.epoch,
            index: place.index,
            receiver: self.maybe_called(receiver)?,
        })
    }

    fn took(
        &self,
        by: &ProcessId,
        port: Option<u32>,
        message: &Message,
    ) -> Result<Entry, OutOfMemory>
        ensures { IfOk result (λ e. e ≡ entries.Took (process_called self.now by.now) port message.now.mark message.now.body) }
    {
        Ok(Entry::Took {
            by: self.process_called(by)?,
            port,
            mark: message.mark.copy()?,
            body: message.body.copy()?,
        })
    }

    fn over(&self, process: &ProcessId, reason: &Reason) -> Result<Entry, OutOfMemory>
        ensures { IfOk result (λ e. e ≡ entries.Over (process_called self.now process.now) reason.now) }
    {
        Ok(Entry::Over {
            process: self.process_called(process)?,
            reason: reason.copy()?,
        })
    }

    fn doom(&self, process: &ProcessId, text: &Text) -> Result<Entry, OutOfMemory>
        ensures { IfOk result (λ e. e ≡ entries.Doom (process_called self.now process.now) text.now) }
    {
        Ok(Entry::Doom {
            process: self.process_called(process)?,
            text: text.copy()?,
        })
    }

    fn watch(
        &self,
        watch: &Ref,
        by: &ProcessId,
        target: &ProcessId,
        kind: Kind,
    ) -> Result<Entry, OutOfMemory>
        ensures { IfOk result (λ e. e ≡ entries.Watch (reference_called self.now watch.now) (process_called self.now by.now) (process_called self.now target.now) kind) }
    {
        Ok(Entry::Watch {
            watch: self.reference_called(watch)?,
            by: self.process_called(by)?,
            target: self.process_called(target)?,
            kind,
        })
    }

    fn told(&self, watch: &Ref, reason: &Reason) -> Result<Entry, OutOfMemory>
        ensures { IfOk result (λ e. e ≡ entries.Told (reference_called self.now watch.now) reason.now) }
    {
        Ok(Entry::Told {
            watch: self.reference_called(watch)?,
            reason: reason.copy()?,
        })
    }

    fn asked(&self, question: &Ref, by: &ProcessId, at: &Address) -> Result<Entry, OutOfMemory>
        ensures { IfOk result (λ e. e ≡ entries.Asked (reference_called self.now question.now) (process_called self.now by.now) (called self.now at.now)) }
    {
        Ok(Entry::Asked {
            question: self.reference_called(question)?,
            by: self.process_called(by)?,
            at: self.called(at)?,
        })
    }

    fn spawned(&self, question: &Ref, process: &ProcessId) -> Result<Entry, OutOfMemory>
        ensures { IfOk result (λ e. e ≡ entries.Spawned (reference_called self.now question.now) (process_called self.now process.now)) }
    {
        Ok(Entry::Spawned {
            question: self.reference_called(question)?,
            process: self.process_called(process)?,
        })
    }

    fn is_at(&self, question: &Ref, found: &Option<ProcessId>) -> Result<Entry, OutOfMemory>
        ensures { IfOk result (λ e. e ≡ entries.Isat (reference_called self.now question.now) (maybe_called self.now found.now)) }
    {
        Ok(Entry::Isat {
            question: self.reference_called(question)?,
            found: self.maybe_called(found)?,
        })
    }

    fn stands(
        &self,
        node: &Address,
        name: &Name,
        process: &Option<ProcessId>,
    ) -> Result<Entry, OutOfMemory>
        ensures { IfOk result (λ e. e ≡ entries.Named (called self.now node.now) name.now (maybe_called self.now process.now)) }
    {
        Ok(Entry::Named {
            node: self.called(node)?,
            name: name.copy()?,
            process: self.maybe_called(process)?,
        })
    }
}
