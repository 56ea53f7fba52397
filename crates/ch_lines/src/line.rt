//! What a line says, given the lines before: the words of lines, each with its reader.
//!
//! A word is looked for in the grammar's order. Readings stand above.

ghost use Rattle.std.specs.Prelude.{◌≡◌, Ok, MatchResult, OnErr};
ghost use Rattle.std.specs.Option.{option_map};
ghost use Rattle.ch_model.specs.LinesBuilt.{one_node, many_nodes};
ghost use Rattle.ch_model.specs.Lines.{whole, happening, line_of_word, line_said, says_nothing as says_nothing_of, said_and_told, read_header, read_line};
ghost use Rattle.ch_lines.specs.Grammars.{built_of, from_acting, from_watching};
ghost use Rattle.ch_fields.specs.Outcome.{Gives, Fails};

use crate::grammar::Grammar;
use crate::known::Known;
use ch_fields::{Fault, field};
use ch_model::{BadKind, What};
use std::alloc::Global;

/// The first line of a journal.
const HEADER: &[u8] = b"chjournal 1";

/// An empty line, or a comment.
fn says_nothing(text: &[u8]) -> bool
    ensures { result ≡ says_nothing_of text.now }
{
    match text {
        [] => true,
        [b, ..] => *b == b';',
    }
}

impl Known {
    /// The line of this word, where one node's lines are read.
    #[tactic(auto, unfolding(ch_model::specs::Lines::line_of_word))]
    fn one_node_line(&self, alloc: Global, word: &[u8], rest: Option<&[u8]>) -> Result<What, Fault>
        ensures { Gives (λ x. x) result (line_of_word one_node.words self.now word.now (option_map (λ r. r.now) rest.entry)) }
    {
        if word == b"send".as_slice() {
            self.send_process_line(alloc, rest)
        } else if word == b"recv".as_slice() {
            self.recv_line(alloc, rest)
        } else if word == b"end".as_slice() {
            self.end_line(alloc, rest)
        } else if word == b"proc".as_slice() {
            self.proc_line(alloc, rest)
        } else if word == b"node".as_slice() {
            self.only_node_line(alloc, rest)
        } else {
            Err(Fault::Bad(BadKind::Form))
        }
    }

    /// The line of this word, where the lines of any number of nodes are read.
    #[tactic(auto, unfolding(ch_model::specs::Lines::line_of_word))]
    fn many_nodes_line(
        &self,
        alloc: Global,
        word: &[u8],
        rest: Option<&[u8]>,
    ) -> Result<What, Fault>
        ensures { Gives (λ x. x) result (line_of_word many_nodes.words self.now word.now (option_map (λ r. r.now) rest.entry)) }
    {
        if word == b"send".as_slice() {
            self.send_process_line(alloc, rest)
        } else if word == b"recv".as_slice() {
            self.recv_line(alloc, rest)
        } else if word == b"end".as_slice() {
            self.end_line(alloc, rest)
        } else if word == b"feed".as_slice() {
            self.feed_line(alloc, rest)
        } else if word == b"join".as_slice() {
            self.join_line(alloc, rest)
        } else if word == b"come".as_slice() {
            self.come_line(alloc, rest)
        } else if word == b"proc".as_slice() {
            self.proc_line(alloc, rest)
        } else if word == b"node".as_slice() {
            self.node_line(alloc, rest)
        } else {
            Err(Fault::Bad(BadKind::Form))
        }
    }

    /// The line of this word, where it acts for the network, a stranger or a node.
    #[tactic(auto, unfolding(ch_model::specs::Lines::line_of_word))]
    fn happening_line(&self, alloc: Global, word: &[u8], rest: Option<&[u8]>) -> Result<What, Fault>
        ensures { Gives (λ x. x) result (line_of_word happening self.now word.now (option_map (λ r. r.now) rest.entry)) }
    {
        if word == b"shut".as_slice() {
            self.shut_line(alloc, rest)
        } else if word == b"join".as_slice() {
            self.join_line(alloc, rest)
        } else if word == b"come".as_slice() {
            self.come_line(alloc, rest)
        } else if word == b"refuse".as_slice() {
            self.refuse_line(alloc, rest)
        } else if word == b"feed".as_slice() {
            self.feed_line(alloc, rest)
        } else if word == b"cut".as_slice() {
            self.cut_line(alloc, rest)
        } else if word == b"lose".as_slice() {
            self.lose_line(alloc, rest)
        } else if word == b"late".as_slice() {
            self.late_line(alloc, rest)
        } else if word == b"knock".as_slice() {
            self.knock_line(alloc, rest)
        } else if word == b"poke".as_slice() {
            self.poke_line(alloc, rest)
        } else if word == b"quit".as_slice() {
            self.quit_line(alloc, rest)
        } else if word == b"settle".as_slice() {
            self.settle_line(rest)
        } else {
            Err(Fault::Bad(BadKind::Form))
        }
    }

    /// The same, or where a process acts on another or asks a node.
    #[tactic(auto, unfolding(ch_model::specs::Lines::line_of_word))]
    fn watching_line(&self, alloc: Global, word: &[u8], rest: Option<&[u8]>) -> Result<What, Fault>
        ensures { Gives (λ x. x) result (line_of_word from_watching self.now word.now (option_map (λ r. r.now) rest.entry)) }
    {
        if word == b"monitor".as_slice() {
            self.monitor_line(alloc, rest)
        } else if word == b"link".as_slice() {
            self.link_line(alloc, rest)
        } else if word == b"unwatch".as_slice() {
            self.unwatch_line(alloc, rest)
        } else if word == b"exit".as_slice() {
            self.exit_line(alloc, rest)
        } else if word == b"kill".as_slice() {
            self.kill_line(alloc, rest)
        } else if word == b"spawn".as_slice() {
            self.spawn_line(alloc, rest)
        } else if word == b"whereis".as_slice() {
            self.whereis_line(alloc, rest)
        } else {
            self.happening_line(alloc, word, rest)
        }
    }

    /// The same, or where a process acts on its own.
    #[tactic(auto, unfolding(ch_model::specs::Lines::line_of_word))]
    fn acting_line(&self, alloc: Global, word: &[u8], rest: Option<&[u8]>) -> Result<What, Fault>
        ensures { Gives (λ x. x) result (line_of_word from_acting self.now word.now (option_map (λ r. r.now) rest.entry)) }
    {
        if word == b"proc".as_slice() {
            self.proc_line(alloc, rest)
        } else if word == b"send".as_slice() {
            self.send_line(alloc, rest)
        } else if word == b"nsend".as_slice() {
            self.nsend_line(alloc, rest)
        } else if word == b"again".as_slice() {
            self.again_line(alloc, rest)
        } else if word == b"recv".as_slice() {
            self.recv_line(alloc, rest)
        } else if word == b"port".as_slice() {
            self.port_line(alloc, rest)
        } else if word == b"take".as_slice() {
            self.take_line(alloc, rest)
        } else if word == b"end".as_slice() {
            self.end_line(alloc, rest)
        } else if word == b"fail".as_slice() {
            self.fail_line(alloc, rest)
        } else if word == b"fall".as_slice() {
            self.fall_line(alloc, rest)
        } else if word == b"register".as_slice() {
            self.register_line(alloc, rest)
        } else if word == b"unregister".as_slice() {
            self.unregister_line(alloc, rest)
        } else {
            self.watching_line(alloc, word, rest)
        }
    }

    /// The line of this word, where every line is read.
    #[tactic(auto, unfolding(ch_model::specs::Lines::line_of_word))]
    fn whole_line(&self, alloc: Global, word: &[u8], rest: Option<&[u8]>) -> Result<What, Fault>
        ensures { Gives (λ x. x) result (line_of_word whole.words self.now word.now (option_map (λ r. r.now) rest.entry)) }
    {
        if word == b"node".as_slice() {
            self.node_line(alloc, rest)
        } else if word == b"away".as_slice() {
            self.away_line(alloc, rest)
        } else if word == b"label".as_slice() {
            self.label_line(alloc, rest)
        } else if word == b"stranger".as_slice() {
            self.stranger_line(alloc, rest)
        } else {
            self.acting_line(alloc, word, rest)
        }
    }

    /// The line of this word.
    fn line_of_word(
        &self,
        grammar: Grammar,
        alloc: Global,
        word: &[u8],
        rest: Option<&[u8]>,
    ) -> Result<What, Fault>
        ensures { Gives (λ x. x) result (line_of_word (built_of grammar).words self.now word.now (option_map (λ r. r.now) rest.entry)) }
    {
        match grammar {
            Grammar::OneNode => self.one_node_line(alloc, word, rest),
            Grammar::ManyNodes => self.many_nodes_line(alloc, word, rest),
            Grammar::Whole => self.whole_line(alloc, word, rest),
        }
    }

    /// What a line after the header says.
    #[tactic(auto, unfolding(ch_model::specs::Lines::line_said))]
    fn said(&self, grammar: Grammar, alloc: Global, text: &[u8]) -> Result<What, Fault>
        ensures { Gives (λ x. x) result (line_said (built_of grammar) self.now text.now) }
    {
        let (word, rest) = field(Some(text))?;
        self.line_of_word(grammar, alloc, word, rest)
    }

    /// Reads the header, which says nothing.
    fn header_line(&mut self, text: &[u8]) -> Result<Option<What>, Fault>
        ensures exact { MatchResult result (λ what. read_header self.old text.now ≡ Ok (what, self.new)) (λ e. Fails e (read_header self.old text.now)) }
        ensures kept { OnErr result (self.new ≡ self.old) }
    {
        if text != HEADER {
            return Err(Fault::Bad(BadKind::Form));
        }
        self.header = true;
        Ok(None)
    }

    /// Reads a line that says something, after the header.
    fn saying_line(
        &mut self,
        grammar: Grammar,
        alloc: Global,
        text: &[u8],
    ) -> Result<Option<What>, Fault>
        ensures exact { MatchResult result (λ what. said_and_told self.old (line_said (built_of grammar) self.old text.now) ≡ Ok (what, self.new)) (λ e. Fails e (said_and_told self.old (line_said (built_of grammar) self.old text.now))) }
        ensures kept { OnErr result (self.new ≡ self.old) }
    {
        let what = self.said(grammar, alloc, text)?;
        self.learn(&what)?;
        Ok(Some(what))
    }

    /// Reads a line. The header says nothing, nor does a line that is passed over.
    pub(crate) fn line(
        &mut self,
        grammar: Grammar,
        alloc: Global,
        text: &[u8],
    ) -> Result<Option<What>, Fault>
        ensures exact { MatchResult result (λ what. read_line (built_of grammar) self.old text.now ≡ Ok (what, self.new)) (λ e. Fails e (read_line (built_of grammar) self.old text.now)) }
        ensures kept { OnErr result (self.new ≡ self.old) }
    {
        if !self.header {
            self.header_line(text)
        } else if grammar.skips() && says_nothing(text) {
            Ok(None)
        } else {
            self.saying_line(grammar, alloc, text)
        }
    }
}
