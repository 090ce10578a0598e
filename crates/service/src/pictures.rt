// The plate that people see, for Rust and C callers; `dbi_text`, `svg_text` and `compare_text` have what
// each call does.
ghost use Rattle.std.specs.Prelude.{ltb, length};
ghost use Rattle.words.specs.Writing.{Wrote};
ghost use Rattle.dbi_text.specs.Dbi.{text_in};
ghost use Rattle.svg_text.specs.Svg.{svg_in, svg_two_in};
ghost use Rattle.compare_text.specs.Compare.{compare_in};

// The plate in dBi, a line for each azimuth.
#[unsafe(no_mangle)]
pub extern "C" fn hf_dbi(input: &[u8], text: &mut [u8]) -> usize
    ensures { Wrote text.old 0 (text_in (length text.old) input.now) text.new result }
{
    dbi_text::dbi(input, text)
}

// The plate as a picture; any fold but 0 asks for what is folded over to be shown apart.
#[unsafe(no_mangle)]
pub extern "C" fn hf_svg(input: &[u8], fold: u32, text: &mut [u8]) -> usize
    ensures { Wrote text.old 0 (svg_in (length text.old) input.now (ltb 0 fold)) text.new result }
{
    svg_text::svg(input, 0 < fold, text)
}

// Two masts on one plate.
#[unsafe(no_mangle)]
pub extern "C" fn hf_svg_two(first: &[u8], second: &[u8], text: &mut [u8]) -> usize
    ensures { Wrote text.old 0 (svg_two_in (length text.old) first.now second.now) text.new result }
{
    svg_text::svg_two(first, second, text)
}

// Two masts in words, with the azimuth of the base.
#[unsafe(no_mangle)]
pub extern "C" fn hf_compare(first: &[u8], second: &[u8], base: u32, text: &mut [u8]) -> usize
    ensures { Wrote text.old 0 (compare_in (length text.old) first.now second.now base) text.new result }
{
    compare_text::compare(first, second, base, text)
}
