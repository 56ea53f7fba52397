//! The lines by which a process acts on its own: it is made, sends, takes, opens a port, ends, and names
//! itself.
//!
//! Fields and what the lines have told stand below; the words of lines stand above.

ghost use Rattle.std.specs.Prelude.{◌≡◌};
ghost use Rattle.std.specs.Option.{option_map};
ghost use Rattle.ch_model.specs.LinesOfProcesses.{process_alone, process_and_word, proc_line, send_line, nsend_line, again_line, recv_line, port_line, take_line, end_line, fail_line, fall_line, register_line, unregister_line};
ghost use Rattle.ch_model.specs.LinesBuilt.{send_process_line};
ghost use Rattle.ch_fields.specs.Outcome.{Gives};

use crate::known::Known;
use ch_base::Text;
use ch_fields::{
    Fault, bytes, destination, digits, field, last, named, node_name, number, numbered,
    numbered_destination, process, sent_mark, target_node, text, word,
};
use ch_ident::Name;
use ch_model::{ProcName, TargetName, What};
use std::alloc::Global;

impl Known {
    /// A process of a node, and no more.
    #[tactic(auto, unfolding(ch_model::specs::LinesOfProcesses::process_alone))]
    fn process_alone(&self, alloc: Global, rest: Option<&[u8]>) -> Result<ProcName, Fault>
        ensures { Gives (λ x. x) result (process_alone self.now (option_map (λ r. r.now) rest.entry)) }
    {
        let (by, rest) = field(rest)?;
        last(rest)?;
        let (actor, digits) = process(by)?;
        let by = numbered(alloc, actor, digits)?;
        self.declared(by.node.as_slice())?;
        Ok(by)
    }

    /// A process of a node, and a word.
    #[tactic(auto, unfolding(ch_model::specs::LinesOfProcesses::process_and_word))]
    fn process_and_word(
        &self,
        alloc: Global,
        rest: Option<&[u8]>,
    ) -> Result<(ProcName, Name), Fault>
        ensures { Gives (λ x. x) result (process_and_word self.now (option_map (λ r. r.now) rest.entry)) }
    {
        let (by, rest) = field(rest)?;
        let (mark, rest) = field(rest)?;
        last(rest)?;
        let (actor, digits) = process(by)?;
        let mark = word(alloc, mark)?;
        let by = numbered(alloc, actor, digits)?;
        self.declared(by.node.as_slice())?;
        Ok((by, mark))
    }

    /// `proc N`.
    #[tactic(auto, unfolding(ch_model::specs::LinesOfProcesses::proc_line))]
    pub(crate) fn proc_line(&self, alloc: Global, rest: Option<&[u8]>) -> Result<What, Fault>
        ensures { Gives (λ x. x) result (proc_line self.now (option_map (λ r. r.now) rest.entry)) }
    {
        let (name, rest) = field(rest)?;
        last(rest)?;
        let name = self.declared(node_name(name)?)?;
        Ok(What::Proc {
            node: Text::of(alloc, name)?,
        })
    }

    /// `send P P word hex`, to a process of the node.
    #[tactic(auto, unfolding(ch_model::specs::LinesBuilt::send_process_line))]
    pub(crate) fn send_process_line(
        &self,
        alloc: Global,
        rest: Option<&[u8]>,
    ) -> Result<What, Fault>
        ensures { Gives (λ x. x) result (send_process_line self.now (option_map (λ r. r.now) rest.entry)) }
    {
        let (by, rest) = field(rest)?;
        let (to, rest) = field(rest)?;
        let (mark, rest) = field(rest)?;
        let (body, rest) = field(rest)?;
        last(rest)?;
        let (sender, sender_digits) = process(by)?;
        let (receiver, receiver_digits) = process(to)?;
        let mark = sent_mark(alloc, mark)?;
        let body = bytes(alloc, body)?;
        let by = numbered(alloc, sender, sender_digits)?;
        let to = numbered(alloc, receiver, receiver_digits)?;
        self.declared(by.node.as_slice())?;
        self.declared(to.node.as_slice())?;
        Ok(What::Send {
            by,
            to: TargetName::Process { process: to },
            mark,
            body,
        })
    }

    /// `send P D word hex`.
    #[tactic(auto, unfolding(ch_model::specs::LinesOfProcesses::send_line))]
    pub(crate) fn send_line(&self, alloc: Global, rest: Option<&[u8]>) -> Result<What, Fault>
        ensures { Gives (λ x. x) result (send_line self.now (option_map (λ r. r.now) rest.entry)) }
    {
        let (by, rest) = field(rest)?;
        let (to, rest) = field(rest)?;
        let (mark, rest) = field(rest)?;
        let (body, rest) = field(rest)?;
        last(rest)?;
        let (sender, sender_digits) = process(by)?;
        let ((receiver, receiver_digits), port) = destination(to)?;
        let mark = sent_mark(alloc, mark)?;
        let body = bytes(alloc, body)?;
        let by = numbered(alloc, sender, sender_digits)?;
        let to = numbered_destination(alloc, receiver, receiver_digits, port)?;
        self.declared(by.node.as_slice())?;
        self.peer(target_node(&to))?;
        Ok(What::Send { by, to, mark, body })
    }

    /// `nsend P T word hex`.
    #[tactic(auto, unfolding(ch_model::specs::LinesOfProcesses::nsend_line))]
    pub(crate) fn nsend_line(&self, alloc: Global, rest: Option<&[u8]>) -> Result<What, Fault>
        ensures { Gives (λ x. x) result (nsend_line self.now (option_map (λ r. r.now) rest.entry)) }
    {
        let (by, rest) = field(rest)?;
        let (to, rest) = field(rest)?;
        let (mark, rest) = field(rest)?;
        let (body, rest) = field(rest)?;
        last(rest)?;
        let (sender, sender_digits) = process(by)?;
        let to = named(alloc, to)?;
        let mark = sent_mark(alloc, mark)?;
        let body = bytes(alloc, body)?;
        let by = numbered(alloc, sender, sender_digits)?;
        self.declared(by.node.as_slice())?;
        self.peer(target_node(&to))?;
        Ok(What::Nsend { by, to, mark, body })
    }

    /// `again P D`.
    #[tactic(auto, unfolding(ch_model::specs::LinesOfProcesses::again_line))]
    pub(crate) fn again_line(&self, alloc: Global, rest: Option<&[u8]>) -> Result<What, Fault>
        ensures { Gives (λ x. x) result (again_line self.now (option_map (λ r. r.now) rest.entry)) }
    {
        let (by, rest) = field(rest)?;
        let (to, rest) = field(rest)?;
        last(rest)?;
        let (sender, sender_digits) = process(by)?;
        let ((receiver, receiver_digits), port) = destination(to)?;
        let by = numbered(alloc, sender, sender_digits)?;
        let to = numbered_destination(alloc, receiver, receiver_digits, port)?;
        self.declared(by.node.as_slice())?;
        self.peer(target_node(&to))?;
        Ok(What::Again { by, to })
    }

    /// `recv P word`.
    #[tactic(auto, unfolding(ch_model::specs::LinesOfProcesses::recv_line))]
    pub(crate) fn recv_line(&self, alloc: Global, rest: Option<&[u8]>) -> Result<What, Fault>
        ensures { Gives (λ x. x) result (recv_line self.now (option_map (λ r. r.now) rest.entry)) }
    {
        let (by, mark) = self.process_and_word(alloc, rest)?;
        Ok(What::Recv { by, mark })
    }

    /// `port P`.
    #[tactic(auto, unfolding(ch_model::specs::LinesOfProcesses::port_line))]
    pub(crate) fn port_line(&self, alloc: Global, rest: Option<&[u8]>) -> Result<What, Fault>
        ensures { Gives (λ x. x) result (port_line self.now (option_map (λ r. r.now) rest.entry)) }
    {
        let by = self.process_alone(alloc, rest)?;
        Ok(What::Port { by })
    }

    /// `take P num`.
    #[tactic(auto, unfolding(ch_model::specs::LinesOfProcesses::take_line))]
    pub(crate) fn take_line(&self, alloc: Global, rest: Option<&[u8]>) -> Result<What, Fault>
        ensures { Gives (λ x. x) result (take_line self.now (option_map (λ r. r.now) rest.entry)) }
    {
        let (by, rest) = field(rest)?;
        let (port, rest) = field(rest)?;
        last(rest)?;
        let (actor, actor_digits) = process(by)?;
        let port_digits = digits(port)?;
        let by = numbered(alloc, actor, actor_digits)?;
        let port = number(port_digits)?;
        self.declared(by.node.as_slice())?;
        Ok(What::Take { by, port })
    }

    /// `end P`.
    #[tactic(auto, unfolding(ch_model::specs::LinesOfProcesses::end_line))]
    pub(crate) fn end_line(&self, alloc: Global, rest: Option<&[u8]>) -> Result<What, Fault>
        ensures { Gives (λ x. x) result (end_line self.now (option_map (λ r. r.now) rest.entry)) }
    {
        let by = self.process_alone(alloc, rest)?;
        Ok(What::End { by })
    }

    /// `fail P text`.
    #[tactic(auto, unfolding(ch_model::specs::LinesOfProcesses::fail_line))]
    pub(crate) fn fail_line(&self, alloc: Global, rest: Option<&[u8]>) -> Result<What, Fault>
        ensures { Gives (λ x. x) result (fail_line self.now (option_map (λ r. r.now) rest.entry)) }
    {
        let (by, rest) = field(rest)?;
        let (actor, digits) = process(by)?;
        let why = text(rest)?;
        let by = numbered(alloc, actor, digits)?;
        self.declared(by.node.as_slice())?;
        Ok(What::Fail {
            by,
            text: Text::of(alloc, why)?,
        })
    }

    /// `fall P`.
    #[tactic(auto, unfolding(ch_model::specs::LinesOfProcesses::fall_line))]
    pub(crate) fn fall_line(&self, alloc: Global, rest: Option<&[u8]>) -> Result<What, Fault>
        ensures { Gives (λ x. x) result (fall_line self.now (option_map (λ r. r.now) rest.entry)) }
    {
        let by = self.process_alone(alloc, rest)?;
        Ok(What::Fall { by })
    }

    /// `register P word`.
    #[tactic(auto, unfolding(ch_model::specs::LinesOfProcesses::register_line))]
    pub(crate) fn register_line(&self, alloc: Global, rest: Option<&[u8]>) -> Result<What, Fault>
        ensures { Gives (λ x. x) result (register_line self.now (option_map (λ r. r.now) rest.entry)) }
    {
        let (by, name) = self.process_and_word(alloc, rest)?;
        Ok(What::Register { by, name })
    }

    /// `unregister P word`.
    #[tactic(auto, unfolding(ch_model::specs::LinesOfProcesses::unregister_line))]
    pub(crate) fn unregister_line(&self, alloc: Global, rest: Option<&[u8]>) -> Result<What, Fault>
        ensures { Gives (λ x. x) result (unregister_line self.now (option_map (λ r. r.now) rest.entry)) }
    {
        let (by, name) = self.process_and_word(alloc, rest)?;
        Ok(What::Unregister { by, name })
    }
}
