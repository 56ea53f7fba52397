//! An actor and a program that keep the laws of their traits.

use ch_base::OutOfMemory;
use ch_ident::Name;
use ch_static::{Actor, Command, Program, Reply, Turn};

/// An actor that ends at its first turn, or once it is woken.
#[derive(Debug, Drop)]
pub struct Ender {
    pub rests: bool,
}

impl Actor for Ender {
    ghost use Rattle.ch_static_rows.specs.Ender.{ender_answer, ender_after, ender_rests, ender_wakes};

    ghost answer = { ender_answer };

    ghost after = { ender_after };

    #[tactic(auto, unfolding(crate::specs::Ender::ender_answer, crate::specs::Ender::ender_after))]
    fn turn(&mut self, last: &Reply) -> Result<Turn, OutOfMemory> {
        if self.rests && !matches!(last, Reply::Woken) {
            return Ok(Turn::Rest);
        }
        Ok(Turn::Do(Command::End))
    }

    ghost rests = { ender_rests };

    ghost wakes = { ender_wakes };
}

/// A program whose one label is `w`.
pub struct Enders;

impl Program for Enders {
    type Actor = Ender;

    ghost use Rattle.std.specs.Prelude.{codes, true, false};
    ghost use Rattle.std.specs.Str.{bytes_eq};

    ghost has = { λ program label. bytes_eq label (codes "w") };

    ghost starter = { λ program. record { rests = false } };

    ghost worker = { λ program label args. record { rests = true } };

    fn start(&self) -> Result<Ender, OutOfMemory> {
        Ok(Ender { rests: false })
    }

    fn make(&self, label: &Name, _args: &[u8]) -> Result<Option<Ender>, OutOfMemory> {
        if label.bytes.as_slice() == b"w".as_slice() {
            Ok(Some(Ender { rests: true }))
        } else {
            Ok(None)
        }
    }
}
