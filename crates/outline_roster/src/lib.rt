// Different keys, numbered in the order in which they came, and a digital tree that finds them. Node i has the key keys[i] and
// two children, kids[2 * i] and kids[2 * i + 1], 0 if there is none; the way down to a key goes by its binary digits, so it has
// 33 nodes at most.
#![tactic(auto)]

ghost use Rattle.std.specs.Prelude.{◌≡◌, ◌*◌, ◌%◌, ◌<◌, length};
ghost use Rattle.outline_roster.specs.Tree.{seek_from, Tree, Seated};

// The node of a key, and how many nodes there are then.
#[derive(Clone, Copy)]
pub struct Seat {
    pub node: usize,
    pub used: usize,
}

fn digit(r: u32) -> usize
    ensures { result ≡ r % 2 }
{
    (r % 2) as usize
}

// The node of the key k among `used` nodes. Err if it has none: then with the place in kids where the way down to it ends, and
// where its node is to be hung.
fn seek(keys: &[u32], kids: &[u16], used: usize, k: u32) -> Result<usize, usize>
    requires { Tree keys.now kids.now used }
    ensures { result ≡ seek_from used keys.now kids.now k 0 k }
{
    let mut i = 0;
    let mut r = k;
    while keys[i] != k {
        let at = 2 * i + digit(r);
        let c = usize::from(kids[at]);
        if c == 0 {
            return Err(at);
        }
        i = c;
        r /= 2;
    }
    Ok(i)
}

// The node of the key k, which is made if it is not there yet.
pub fn enter(keys: &mut [u32], kids: &mut [u16], used: usize, k: u32) -> Seat
    requires { Tree keys.old kids.old used × (used < length keys.old) × (used < 65536) }
    ensures { Seated keys.old used k keys.new kids.new result.node result.used }
{
    match seek(keys, kids, used, k) {
        Ok(node) => Seat { node, used },
        Err(at) => {
            keys[used] = k;
            kids[at] = used as u16;
            Seat {
                node: used,
                used: used + 1,
            }
        }
    }
}
