// Replies.
ghost use Rattle.std.specs.Prelude.{◌≡◌, ◌-◌, ◌^◌, ◌<◌};
ghost use Rattle.chyp_session.specs.Reply.{reply_text};
ghost use Rattle.chyp_write.specs.Writing.{Writes};

use chyp_base::{Failed, Sink};
use chyp_write::write_all;
use itoa::Buffer;

/// A line that isn't a statement's.
#[derive(Clone, Copy, Debug, PartialEq, Eq)]
pub enum Reply {
    /// `total T good G`: how many statements there are, and how many of them are good.
    Total { total: u64, good: u64 },
}

/// Appends the text of a reply, with LF. It takes no memory.
///
/// # Errors
///
/// `Failed` where the sink failed; a prefix of the text was appended then.
pub fn write_reply<K: Sink>(reply: &Reply, sink: &mut K) -> Result<(), Failed>
    requires { K.faults sink.old < 2 ^ 64 - 1 }
    ensures { Writes (K.held sink.old) (K.held sink.new) (K.faults sink.old) (K.faults sink.new) result (reply_text reply.now) }
{
    match reply {
        Reply::Total { total, good } => write_total(*total, *good, sink),
    }
}

// `total T good G`
fn write_total<K: Sink>(total: u64, good: u64, sink: &mut K) -> Result<(), Failed>
    requires { K.faults sink.old < 2 ^ 64 - 1 }
    ensures { Writes (K.held sink.old) (K.held sink.new) (K.faults sink.old) (K.faults sink.new) result
        (reply_text (Reply.Total total good)) }
{
    let mut totals = Buffer::new();
    let mut goods = Buffer::new();
    write_all(
        sink,
        &[
            "total ",
            totals.format(total),
            " good ",
            goods.format(good),
            "\n",
        ],
    )
}
