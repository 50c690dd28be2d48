// The driver's call with a lent buffer: slots run until it is full or one is idle.
#![tactic(auto)]

ghost use Rattle.std.specs.Prelude.{◌≡◌, true, ◌≤◌, length};
ghost use Rattle.port.specs.Port.{valid_port};
ghost use Rattle.fill.specs.Fill.{Goes};
ghost use Rattle.fill.specs.Clauses.{Fill};

use port::Port;
use refusal::Refusal;

#[derive(Clone, Copy)]
pub struct Filled {
    pub verdict: Result<(), Refusal>,
    // the bytes written, a byte for each sending slot that was run
    pub count: usize,
    pub port: Port,
}

// Slots that went on with a message: how many, and the port after them.
#[derive(Clone, Copy)]
struct Onward {
    count: usize,
    port: Port,
}

// The rest of the message under way leaves, a byte a slot, as far as there is room from a place on.
fn go_on(port: Port, out: &mut [u8], from: usize) -> Onward
    requires { (valid_port port ≡ true) × (from ≤ length out.old) }
    ensures { Goes port out.old from result out.new }
{
    let at = port.message.at;
    let count = (port.message.len - at).min(out.len() - from);
    if count == 0 {
        return Onward { count: 0, port };
    }
    let end = at + count;
    lent::put_text(out, from, &port.message.bytes[at..end]);
    Onward {
        count,
        port: port::sent_up_to(port, end),
    }
}

// Runs at most as many slots as the buffer has bytes; an idle one is run and not counted. The slots of a
// message are run together.
pub fn fill(port: Port, out: &mut [u8]) -> Filled
    ensures { Fill port out.old result out.new }
{
    if !port.is_valid() {
        return Filled {
            verdict: Err(Refusal::State),
            count: 0,
            port,
        };
    }
    let under_way = go_on(port, out, 0);
    let mut q = under_way.port;
    let mut i = under_way.count;
    // Steps of a message's length, so no `for`.
    while i < out.len() {
        let slotted = port::choose(q);
        q = slotted.port;
        let Ok(Some(b)) = slotted.sent else {
            return Filled {
                verdict: Ok(()),
                count: i,
                port: q,
            };
        };
        out[i] = b;
        let onward = go_on(q, out, i + 1);
        q = onward.port;
        i = i + 1 + onward.count;
    }
    Filled {
        verdict: Ok(()),
        count: i,
        port: q,
    }
}
