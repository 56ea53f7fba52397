//! The lines by which the network, a stranger or a node as a whole acts.
//!
//! Fields and what the lines have told stand below; the words of lines stand above.

ghost use Rattle.std.specs.Prelude.{◌≡◌};
ghost use Rattle.std.specs.Option.{option_map};
ghost use Rattle.ch_model.specs.LinesOfSockets.{socket_alone, socket_and_end, shut_line, join_line, come_line, refuse_line, feed_line, cut_line, lose_line, late_line, knock_line, poke_line, quit_line, settle_line};
ghost use Rattle.ch_fields.specs.Outcome.{Gives};

use crate::known::Known;
use ch_base::Text;
use ch_fields::{
    Fault, apart, bytes, count, digits, end, field, last, node_name, numbered_socket, socket,
};
use ch_model::{End, SockName, What};
use std::alloc::Global;

impl Known {
    /// A socket that a node or a stranger opened, and no more.
    #[tactic(auto, unfolding(ch_model::specs::LinesOfSockets::socket_alone))]
    fn socket_alone(&self, alloc: Global, rest: Option<&[u8]>) -> Result<SockName, Fault>
        ensures { Gives (λ x. x) result (socket_alone self.now (option_map (λ r. r.now) rest.entry)) }
    {
        let (sock, rest) = field(rest)?;
        last(rest)?;
        let (from, to, digits) = socket(sock)?;
        let sock = numbered_socket(alloc, from, to, digits)?;
        self.opener(sock.from.as_slice())?;
        self.peer(sock.to.as_slice())?;
        Ok(sock)
    }

    /// Such a socket, and an end.
    #[tactic(auto, unfolding(ch_model::specs::LinesOfSockets::socket_and_end))]
    fn socket_and_end(&self, alloc: Global, rest: Option<&[u8]>) -> Result<(SockName, End), Fault>
        ensures { Gives (λ x. x) result (socket_and_end self.now (option_map (λ r. r.now) rest.entry)) }
    {
        let (sock, rest) = field(rest)?;
        let (letter, rest) = field(rest)?;
        last(rest)?;
        let (from, to, digits) = socket(sock)?;
        let end = end(letter)?;
        let sock = numbered_socket(alloc, from, to, digits)?;
        self.opener(sock.from.as_slice())?;
        self.peer(sock.to.as_slice())?;
        Ok((sock, end))
    }

    /// `shut N`.
    #[tactic(auto, unfolding(ch_model::specs::LinesOfSockets::shut_line))]
    pub(crate) fn shut_line(&self, alloc: Global, rest: Option<&[u8]>) -> Result<What, Fault>
        ensures { Gives (λ x. x) result (shut_line self.now (option_map (λ r. r.now) rest.entry)) }
    {
        let (name, rest) = field(rest)?;
        last(rest)?;
        let name = self.declared(node_name(name)?)?;
        Ok(What::Shut {
            node: Text::of(alloc, name)?,
        })
    }

    /// `join S`.
    #[tactic(auto, unfolding(ch_model::specs::LinesOfSockets::join_line))]
    pub(crate) fn join_line(&self, alloc: Global, rest: Option<&[u8]>) -> Result<What, Fault>
        ensures { Gives (λ x. x) result (join_line self.now (option_map (λ r. r.now) rest.entry)) }
    {
        let sock = self.socket_alone(alloc, rest)?;
        Ok(What::Join { sock })
    }

    /// `come S`.
    #[tactic(auto, unfolding(ch_model::specs::LinesOfSockets::come_line))]
    pub(crate) fn come_line(&self, alloc: Global, rest: Option<&[u8]>) -> Result<What, Fault>
        ensures { Gives (λ x. x) result (come_line self.now (option_map (λ r. r.now) rest.entry)) }
    {
        let sock = self.socket_alone(alloc, rest)?;
        Ok(What::Come { sock })
    }

    /// `refuse S`.
    #[tactic(auto, unfolding(ch_model::specs::LinesOfSockets::refuse_line))]
    pub(crate) fn refuse_line(&self, alloc: Global, rest: Option<&[u8]>) -> Result<What, Fault>
        ensures { Gives (λ x. x) result (refuse_line self.now (option_map (λ r. r.now) rest.entry)) }
    {
        let sock = self.socket_alone(alloc, rest)?;
        Ok(What::Refuse { sock })
    }

    /// `feed S E num`, the number being at least 1.
    #[tactic(auto, unfolding(ch_model::specs::LinesOfSockets::feed_line))]
    pub(crate) fn feed_line(&self, alloc: Global, rest: Option<&[u8]>) -> Result<What, Fault>
        ensures { Gives (λ x. x) result (feed_line self.now (option_map (λ r. r.now) rest.entry)) }
    {
        let (sock, rest) = field(rest)?;
        let (letter, rest) = field(rest)?;
        let (most, rest) = field(rest)?;
        last(rest)?;
        let (from, to, sock_digits) = socket(sock)?;
        let end = end(letter)?;
        let most_digits = digits(most)?;
        let sock = numbered_socket(alloc, from, to, sock_digits)?;
        let count = count(most_digits)?;
        self.opener(sock.from.as_slice())?;
        self.peer(sock.to.as_slice())?;
        Ok(What::Feed { sock, end, count })
    }

    /// `cut S E`.
    #[tactic(auto, unfolding(ch_model::specs::LinesOfSockets::cut_line))]
    pub(crate) fn cut_line(&self, alloc: Global, rest: Option<&[u8]>) -> Result<What, Fault>
        ensures { Gives (λ x. x) result (cut_line self.now (option_map (λ r. r.now) rest.entry)) }
    {
        let (sock, end) = self.socket_and_end(alloc, rest)?;
        Ok(What::Cut { sock, end })
    }

    /// `lose S E`.
    #[tactic(auto, unfolding(ch_model::specs::LinesOfSockets::lose_line))]
    pub(crate) fn lose_line(&self, alloc: Global, rest: Option<&[u8]>) -> Result<What, Fault>
        ensures { Gives (λ x. x) result (lose_line self.now (option_map (λ r. r.now) rest.entry)) }
    {
        let (sock, end) = self.socket_and_end(alloc, rest)?;
        Ok(What::Lose { sock, end })
    }

    /// `late N N`, of two different names.
    #[tactic(auto, unfolding(ch_model::specs::LinesOfSockets::late_line))]
    pub(crate) fn late_line(&self, alloc: Global, rest: Option<&[u8]>) -> Result<What, Fault>
        ensures { Gives (λ x. x) result (late_line self.now (option_map (λ r. r.now) rest.entry)) }
    {
        let (name, rest) = field(rest)?;
        let (other, rest) = field(rest)?;
        last(rest)?;
        let first = node_name(name)?;
        let second = node_name(other)?;
        let second = apart(first, second)?;
        let node = self.declared(first)?;
        let peer = self.peer(second)?;
        Ok(What::Late {
            node: Text::of(alloc, node)?,
            peer: Text::of(alloc, peer)?,
        })
    }

    /// `knock N N`: a stranger, and a node.
    #[tactic(auto, unfolding(ch_model::specs::LinesOfSockets::knock_line))]
    pub(crate) fn knock_line(&self, alloc: Global, rest: Option<&[u8]>) -> Result<What, Fault>
        ensures { Gives (λ x. x) result (knock_line self.now (option_map (λ r. r.now) rest.entry)) }
    {
        let (name, rest) = field(rest)?;
        let (other, rest) = field(rest)?;
        last(rest)?;
        let first = node_name(name)?;
        let second = node_name(other)?;
        let stranger = self.stranger(first)?;
        let node = self.declared(second)?;
        Ok(What::Knock {
            stranger: Text::of(alloc, stranger)?,
            node: Text::of(alloc, node)?,
        })
    }

    /// `poke S hex`, of a stranger's socket.
    #[tactic(auto, unfolding(ch_model::specs::LinesOfSockets::poke_line))]
    pub(crate) fn poke_line(&self, alloc: Global, rest: Option<&[u8]>) -> Result<What, Fault>
        ensures { Gives (λ x. x) result (poke_line self.now (option_map (λ r. r.now) rest.entry)) }
    {
        let (sock, rest) = field(rest)?;
        let (written, rest) = field(rest)?;
        last(rest)?;
        let (from, to, digits) = socket(sock)?;
        let bytes = bytes(alloc, written)?;
        let sock = numbered_socket(alloc, from, to, digits)?;
        self.stranger(sock.from.as_slice())?;
        self.peer(sock.to.as_slice())?;
        Ok(What::Poke { sock, bytes })
    }

    /// `quit S`, of a stranger's socket.
    #[tactic(auto, unfolding(ch_model::specs::LinesOfSockets::quit_line))]
    pub(crate) fn quit_line(&self, alloc: Global, rest: Option<&[u8]>) -> Result<What, Fault>
        ensures { Gives (λ x. x) result (quit_line self.now (option_map (λ r. r.now) rest.entry)) }
    {
        let (sock, rest) = field(rest)?;
        last(rest)?;
        let (from, to, digits) = socket(sock)?;
        let sock = numbered_socket(alloc, from, to, digits)?;
        self.stranger(sock.from.as_slice())?;
        self.peer(sock.to.as_slice())?;
        Ok(What::Quit { sock })
    }

    /// `settle`.
    #[tactic(auto, unfolding(ch_model::specs::LinesOfSockets::settle_line))]
    pub(crate) fn settle_line(&self, rest: Option<&[u8]>) -> Result<What, Fault>
        ensures { Gives (λ x. x) result (settle_line self.now (option_map (λ r. r.now) rest.entry)) }
    {
        last(rest)?;
        Ok(What::Settle)
    }
}
