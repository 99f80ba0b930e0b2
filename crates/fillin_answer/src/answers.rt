// The answer to one record: it is decided, and then its line is written.
ghost use Rattle.std.specs.Prelude.{◌≡◌, ◌+◌, ◌*◌, ◌^◌, ◌≤◌, ◌<◌, ◌++◌, length, take, drop};
ghost use Rattle.records.specs.Kinds.{most_weights, weights_in, readings_in};
ghost use Rattle.fillin_text.specs.Text.{laid};
ghost use Rattle.fillin_lines.specs.declared.lines.Line.TheVariants as said;
ghost use Rattle.fillin_window.specs.Windows.{Sound, readings_of, outputs_of};
ghost use Rattle.fillin_answer.specs.Kept.{Ready, Carried, with_layer, behind, one_answered, one_refused};
ghost use Rattle.fillin_answer.specs.Answers.{Replied, window_number, answer_to};
ghost use Rattle.fillin_answer.specs.Inner.{saying, Decides};

use crate::state::{Reply, State};
use fillin_lines::Line;
use fillin_window::window_outputs;
use records::Item;
use refusals::Refusal;
use stepped_shape::Layer;

// What a record is answered with: the line, how many outputs it shows, and what is kept then.
#[derive(Clone, Copy)]
struct Decided {
    line: Line,
    outputs: usize,
    state: State,
}

// The state behind a record of so many bytes.
fn behind_record(mut st: State, size: usize) -> State
    requires { st.offset + size < 2 ^ 64 }
    ensures { result ≡ behind size st }
{
    st.offset += size as u64;
    st
}

// Copies the bytes to the front of a buffer. How many there are.
fn copy_to_front(bytes: &[u8], buf: &mut [u8]) -> usize
    requires { length bytes.now ≤ length buf.old }
    ensures count { result ≡ length bytes.now }
    ensures copied { buf.new ≡ bytes.now ++ drop (length bytes.now) buf.old }
{
    let count = bytes.len();
    buf[..count].copy_from_slice(bytes);
    count
}

// A layer: its weights are kept.
fn take_layer(st: State, l: Layer, size: usize, payload: &[u8], weights: &mut [u8]) -> Decided
    requires { (length (weights_in payload.now) ≤ length weights.old) × (st.offset + size < 2 ^ 64) }
    ensures value { result ≡ saying (said.Layer l.format l.in_feat l.out_feat) 0
        (with_layer l (length (weights_in payload.now)) (behind size st)) }
    ensures weights_after { weights.new ≡ laid weights.old 0 (weights_in payload.now) }
{
    let mut state = behind_record(st, size);
    state.layer = l;
    state.weight_bytes = copy_to_front(records::weights(payload), weights);
    Decided {
        line: Line::Layer {
            format: l.format,
            in_feat: l.in_feat,
            out_feat: l.out_feat,
        },
        outputs: 0,
        state,
    }
}

// A window with warm-up readings: it is refused.
fn refuse_window(st: State, size: usize) -> Decided
    requires { (st.offset + size < 2 ^ 64) × (st.answered + st.refused + 1 < 2 ^ 64) }
    ensures { result ≡ saying (said.WarmUp (window_number st)) 0 (one_refused (behind size st)) }
{
    let mut state = behind_record(st, size);
    state.refused += 1;
    Decided {
        line: Line::WarmUp(st.answered + st.refused + 1),
        outputs: 0,
        state,
    }
}

// A record is refused: nothing more is answered.
fn stop(st: State, why: Refusal) -> Decided
    ensures { result ≡ saying (said.Stop why st.offset) 0 st }
{
    Decided {
        line: Line::Stop {
            why,
            offset: st.offset,
        },
        outputs: 0,
        state: st,
    }
}

// A window for the latest layer: its outputs.
fn answer_window(st: State, size: usize, payload: &[u8], weights: &[u8], y: &mut [f32]) -> Decided
    requires sound { Sound st.layer (length weights.now) × (16 ≤ length y.old)
        × (length (readings_in payload.now) ≡ st.layer.in_feat * 4) }
    requires size_bound { (st.offset + size < 2 ^ 64) × (st.answered + st.refused + 1 < 2 ^ 64) }
    ensures value { result ≡ saying (said.Window (window_number st)) st.layer.out_feat
        (one_answered (behind size st)) }
    ensures y_after { y.new
        ≡ outputs_of st.layer weights.now (readings_of (readings_in payload.now) st.layer)
        ++ drop st.layer.out_feat y.old }
{
    let l = st.layer;
    if let Err(why) = window_outputs(l, weights, records::readings_of(payload), y) {
        return stop(st, why);
    }
    let mut state = behind_record(st, size);
    state.answered += 1;
    Decided {
        line: Line::Window(st.answered + st.refused + 1),
        outputs: l.out_feat,
        state,
    }
}

// What the record that these bytes are is answered with. A layer's weights go to the front of `weights`, and a window's
// outputs to the front of y.
fn decide(st: State, record: &[u8], weights: &mut [u8], y: &mut [f32]) -> Decided
    requires sound { Sound st.layer st.weight_bytes × (most_weights ≤ length weights.old)
        × (16 ≤ length y.old) }
    requires record_bound { (st.offset + length «record».now < 2 ^ 64) × (st.answered + st.refused + 1 < 2 ^ 64) }
    ensures decides { Decides (answer_to st (take st.weight_bytes weights.old) «record».now) result
        y.new }
    ensures weights_after { weights.new
        ≡ laid weights.old 0
        (answer_to st (take st.weight_bytes weights.old) «record».now).weights }
{
    let l = st.layer;
    let size = record.len();
    match records::read(record, l.in_feat) {
        Ok(Item::End) => Decided {
            line: Line::End {
                answered: st.answered,
                refused: st.refused,
            },
            outputs: 0,
            state: st,
        },
        Ok(
            Item::Layer {
                format,
                in_feat,
                out_feat,
            },
        ) => {
            let latest = Layer::of(format, in_feat, out_feat);
            take_layer(st, latest, size, frames::payload(record), weights)
        }
        Ok(Item::Window) => {
            let kept = st.weight_bytes;
            answer_window(st, size, frames::payload(record), &weights[..kept], y)
        }
        Ok(Item::WarmUp) => refuse_window(st, size),
        Err(why) => stop(st, why),
    }
}

// Answers the record that these bytes are: one record, or what is left of the input where that is less. The line's text
// stands at the front of `line`, and the latest layer's weights at the front of `weights`.
pub fn answer(st: State, record: &[u8], weights: &mut [u8], line: &mut [u8]) -> Reply
    requires { Ready st (length «record».now) (length weights.old) (length line.old) }
    ensures replied { Replied (answer_to st (take st.weight_bytes weights.old) «record».now) result
        line.old line.new }
    ensures weights_after { weights.new
        ≡ laid weights.old 0
        (answer_to st (take st.weight_bytes weights.old) «record».now).weights }
    ensures carried { Carried st (length «record».now) result.state
        × (result.length ≤ length line.new) }
{
    let mut y = [0.0f32; records::MOST_LAYER_OUT];
    let decided = decide(st, record, weights, &mut y);
    let shown = decided.outputs;
    let says = decided.line;
    let state = decided.state;
    let length = fillin_lines::write_line(says, &y[..shown], line);
    Reply {
        state,
        line: says,
        length,
    }
}
