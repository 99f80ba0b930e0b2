// The layers.
ghost use Rattle.std.specs.Prelude.{◌≡◌};
ghost use Rattle.layers_shape.specs.Shapes.{shape};
ghost use Rattle.layers_fused.specs.Says.{fused_layer_says};
ghost use Rattle.layers_cpu.specs.Says.{cpu_says};
ghost use Rattle.layers_integer.specs.Says.{integer_layer_says};
ghost use Rattle.c_answers.specs.Answers.{numbered, numbered_blocks};

use c_answers::{number_and_blocks, number_of};
use dots_kept_row::Meeting;
use layouts::{Format, Format32, FormatK};

// `layers_fused::linear_q4_k_fused`, for C.
#[unsafe(no_mangle)]
pub extern "C" fn jambharrow_linear_q4_k_fused(
    x: &[f32],
    w: &[u8],
    y: &mut [f32],
    batch: usize,
    in_feat: usize,
    out_feat: usize,
    blocks: &mut [usize; 2],
) -> u32
    ensures { (result, (y.new, blocks.new))
        ≡ numbered_blocks (fused_layer_says FormatK.Q4K (shape batch in_feat out_feat) x.now w.now
        y.old) blocks.old }
{
    number_and_blocks(
        layers_fused::linear_q4_k_fused(x, w, y, batch, in_feat, out_feat),
        blocks,
    )
}

// `layers_fused::linear_q5_k_fused`, for C.
#[unsafe(no_mangle)]
pub extern "C" fn jambharrow_linear_q5_k_fused(
    x: &[f32],
    w: &[u8],
    y: &mut [f32],
    batch: usize,
    in_feat: usize,
    out_feat: usize,
    blocks: &mut [usize; 2],
) -> u32
    ensures { (result, (y.new, blocks.new))
        ≡ numbered_blocks (fused_layer_says FormatK.Q5K (shape batch in_feat out_feat) x.now w.now
        y.old) blocks.old }
{
    number_and_blocks(
        layers_fused::linear_q5_k_fused(x, w, y, batch, in_feat, out_feat),
        blocks,
    )
}

// `layers_fused::linear_q6_k_fused`, for C.
#[unsafe(no_mangle)]
pub extern "C" fn jambharrow_linear_q6_k_fused(
    x: &[f32],
    w: &[u8],
    y: &mut [f32],
    batch: usize,
    in_feat: usize,
    out_feat: usize,
    blocks: &mut [usize; 2],
) -> u32
    ensures { (result, (y.new, blocks.new))
        ≡ numbered_blocks (fused_layer_says FormatK.Q6K (shape batch in_feat out_feat) x.now w.now
        y.old) blocks.old }
{
    number_and_blocks(
        layers_fused::linear_q6_k_fused(x, w, y, batch, in_feat, out_feat),
        blocks,
    )
}

// `layers_integer::linear_q4_k_integer`, for C.
#[unsafe(no_mangle)]
pub extern "C" fn jambharrow_linear_q4_k_integer(
    x: &[f32],
    w: &[u8],
    y: &mut [f32],
    batch: usize,
    in_feat: usize,
    out_feat: usize,
    blocks: &mut [usize; 2],
) -> u32
    ensures { (result, (y.new, blocks.new))
        ≡ numbered_blocks (integer_layer_says FormatK.Q4K Meeting.Tree (shape batch in_feat out_feat) x.now
        w.now y.old) blocks.old }
{
    number_and_blocks(
        layers_integer::linear_q4_k_integer(x, w, y, batch, in_feat, out_feat),
        blocks,
    )
}

// `layers_integer::linear_q5_k_integer`, for C.
#[unsafe(no_mangle)]
pub extern "C" fn jambharrow_linear_q5_k_integer(
    x: &[f32],
    w: &[u8],
    y: &mut [f32],
    batch: usize,
    in_feat: usize,
    out_feat: usize,
    blocks: &mut [usize; 2],
) -> u32
    ensures { (result, (y.new, blocks.new))
        ≡ numbered_blocks (integer_layer_says FormatK.Q5K Meeting.Tree (shape batch in_feat out_feat) x.now
        w.now y.old) blocks.old }
{
    number_and_blocks(
        layers_integer::linear_q5_k_integer(x, w, y, batch, in_feat, out_feat),
        blocks,
    )
}

// `layers_integer::linear_q6_k_integer`, for C.
#[unsafe(no_mangle)]
pub extern "C" fn jambharrow_linear_q6_k_integer(
    x: &[f32],
    w: &[u8],
    y: &mut [f32],
    batch: usize,
    in_feat: usize,
    out_feat: usize,
    blocks: &mut [usize; 2],
) -> u32
    ensures { (result, (y.new, blocks.new))
        ≡ numbered_blocks (integer_layer_says FormatK.Q6K Meeting.Tree (shape batch in_feat out_feat) x.now
        w.now y.old) blocks.old }
{
    number_and_blocks(
        layers_integer::linear_q6_k_integer(x, w, y, batch, in_feat, out_feat),
        blocks,
    )
}

// `layers_integer::linear_q4_k_integer_rs`, for C.
#[unsafe(no_mangle)]
pub extern "C" fn jambharrow_linear_q4_k_integer_rs(
    x: &[f32],
    w: &[u8],
    y: &mut [f32],
    batch: usize,
    in_feat: usize,
    out_feat: usize,
    blocks: &mut [usize; 2],
) -> u32
    ensures { (result, (y.new, blocks.new))
        ≡ numbered_blocks (integer_layer_says FormatK.Q4K Meeting.Running (shape batch in_feat out_feat) x.now
        w.now y.old) blocks.old }
{
    number_and_blocks(
        layers_integer::linear_q4_k_integer_rs(x, w, y, batch, in_feat, out_feat),
        blocks,
    )
}

// `layers_integer::linear_q5_k_integer_rs`, for C.
#[unsafe(no_mangle)]
pub extern "C" fn jambharrow_linear_q5_k_integer_rs(
    x: &[f32],
    w: &[u8],
    y: &mut [f32],
    batch: usize,
    in_feat: usize,
    out_feat: usize,
    blocks: &mut [usize; 2],
) -> u32
    ensures { (result, (y.new, blocks.new))
        ≡ numbered_blocks (integer_layer_says FormatK.Q5K Meeting.Running (shape batch in_feat out_feat) x.now
        w.now y.old) blocks.old }
{
    number_and_blocks(
        layers_integer::linear_q5_k_integer_rs(x, w, y, batch, in_feat, out_feat),
        blocks,
    )
}

// `layers_integer::linear_q6_k_integer_rs`, for C.
#[unsafe(no_mangle)]
pub extern "C" fn jambharrow_linear_q6_k_integer_rs(
    x: &[f32],
    w: &[u8],
    y: &mut [f32],
    batch: usize,
    in_feat: usize,
    out_feat: usize,
    blocks: &mut [usize; 2],
) -> u32
    ensures { (result, (y.new, blocks.new))
        ≡ numbered_blocks (integer_layer_says FormatK.Q6K Meeting.Running (shape batch in_feat out_feat) x.now
        w.now y.old) blocks.old }
{
    number_and_blocks(
        layers_integer::linear_q6_k_integer_rs(x, w, y, batch, in_feat, out_feat),
        blocks,
    )
}

// `layers_cpu::linear_q4_k_cpu`, for C.
#[unsafe(no_mangle)]
pub extern "C" fn jambharrow_linear_q4_k_cpu(
    x: &[f32],
    w: &[u8],
    y: &mut [f32],
    scratch: &mut [f32],
    batch: usize,
    in_feat: usize,
    out_feat: usize,
) -> u32
    ensures { (result, (y.new, scratch.new))
        ≡ numbered (cpu_says (Format.OfK FormatK.Q4K) (shape batch in_feat out_feat) x.now
        w.now y.old scratch.old) }
{
    number_of(layers_cpu::linear_q4_k_cpu(x, w, y, scratch, batch, in_feat, out_feat))
}

// `layers_cpu::linear_q6_k_cpu`, for C.
#[unsafe(no_mangle)]
pub extern "C" fn jambharrow_linear_q6_k_cpu(
    x: &[f32],
    w: &[u8],
    y: &mut [f32],
    scratch: &mut [f32],
    batch: usize,
    in_feat: usize,
    out_feat: usize,
) -> u32
    ensures { (result, (y.new, scratch.new))
        ≡ numbered (cpu_says (Format.OfK FormatK.Q6K) (shape batch in_feat out_feat) x.now
        w.now y.old scratch.old) }
{
    number_of(layers_cpu::linear_q6_k_cpu(x, w, y, scratch, batch, in_feat, out_feat))
}

// `layers_cpu::linear_q4_0_cpu`, for C.
#[unsafe(no_mangle)]
pub extern "C" fn jambharrow_linear_q4_0_cpu(
    x: &[f32],
    w: &[u8],
    y: &mut [f32],
    scratch: &mut [f32],
    batch: usize,
    in_feat: usize,
    out_feat: usize,
) -> u32
    ensures { (result, (y.new, scratch.new))
        ≡ numbered (cpu_says (Format.Of32 Format32.Q40) (shape batch in_feat out_feat) x.now
        w.now y.old scratch.old) }
{
    number_of(layers_cpu::linear_q4_0_cpu(x, w, y, scratch, batch, in_feat, out_feat))
}

// `layers_cpu::linear_q4_0_ggml_cpu`, for C.
#[unsafe(no_mangle)]
pub extern "C" fn jambharrow_linear_q4_0_ggml_cpu(
    x: &[f32],
    w: &[u8],
    y: &mut [f32],
    scratch: &mut [f32],
    batch: usize,
    in_feat: usize,
    out_feat: usize,
) -> u32
    ensures { (result, (y.new, scratch.new))
        ≡ numbered (cpu_says (Format.Of32 Format32.Q40Ggml) (shape batch in_feat out_feat) x.now
        w.now y.old scratch.old) }
{
    number_of(layers_cpu::linear_q4_0_ggml_cpu(x, w, y, scratch, batch, in_feat, out_feat))
}

// `layers_cpu::linear_iq4_nl_cpu`, for C.
#[unsafe(no_mangle)]
pub extern "C" fn jambharrow_linear_iq4_nl_cpu(
    x: &[f32],
    w: &[u8],
    y: &mut [f32],
    scratch: &mut [f32],
    batch: usize,
    in_feat: usize,
    out_feat: usize,
) -> u32
    ensures { (result, (y.new, scratch.new))
        ≡ numbered (cpu_says (Format.Of32 Format32.Iq4Nl) (shape batch in_feat out_feat) x.now
        w.now y.old scratch.old) }
{
    number_of(layers_cpu::linear_iq4_nl_cpu(x, w, y, scratch, batch, in_feat, out_feat))
}
