// The range and frame calls: document 01, "Ranges" and "Frames". `found` is 1 for yes, and 0 for no and for 2.
ghost use Rattle.memory_structs.specs.Range.{range};
ghost use Rattle.memory_structs.specs.RangeCalls.{size_in_frames, contains_range, overlap, to_extended, from_phys_addr, offset_of_address, address_at_offset};
ghost use Rattle.memory_structs.specs.FrameCalls.{merge, split_range, split_at};
ghost use Rattle.range_answers.specs.Words.{Written, unit_words, number_words, range_words, split_words, halves_words};

use memory_structs::FrameRange;
use range_answers::put;

// out: found, size.
#[unsafe(no_mangle)]
pub extern "C" fn likhmout_size_in_frames(start: u64, end: u64, out: &mut [u64; 2]) -> u64
    ensures { Written number_words (size_in_frames (range start end)) result out.new }
{
    put(FrameRange::new(start, end).size_in_frames().map(Some), out)
}

// out: found.
#[unsafe(no_mangle)]
pub extern "C" fn likhmout_contains_range(
    start: u64,
    end: u64,
    other_start: u64,
    other_end: u64,
    out: &mut [u64; 1],
) -> u64
    ensures { Written unit_words (contains_range (range start end) (range other_start other_end)) result out.new }
{
    // By cases: through `then_some` the search does not prove the clause.
    put(
        FrameRange::new(start, end)
            .contains_range(FrameRange::new(other_start, other_end))
            .map(|found| if found { Some(()) } else { None }),
        out,
    )
}

// out: found, start, end.
#[unsafe(no_mangle)]
pub extern "C" fn likhmout_overlap(
    start: u64,
    end: u64,
    other_start: u64,
    other_end: u64,
    out: &mut [u64; 3],
) -> u64
    ensures { Written range_words (overlap (range start end) (range other_start other_end)) result out.new }
{
    put(
        FrameRange::new(start, end).overlap(FrameRange::new(other_start, other_end)),
        out,
    )
}

// out: found, start, end.
#[unsafe(no_mangle)]
pub extern "C" fn likhmout_to_extended(start: u64, end: u64, frame: u64, out: &mut [u64; 3]) -> u64
    ensures { Written range_words (to_extended (range start end) frame) result out.new }
{
    put(
        FrameRange::new(start, end).to_extended(frame).map(Some),
        out,
    )
}

// out: found, start, end.
#[unsafe(no_mangle)]
pub extern "C" fn likhmout_from_phys_addr(address: u64, bytes: u64, out: &mut [u64; 3]) -> u64
    ensures { Written range_words (from_phys_addr address bytes) result out.new }
{
    put(FrameRange::from_phys_addr(address, bytes).map(Some), out)
}

// out: found, offset.
#[unsafe(no_mangle)]
pub extern "C" fn likhmout_offset_of_address(
    start: u64,
    end: u64,
    address: u64,
    out: &mut [u64; 2],
) -> u64
    ensures { Written number_words (offset_of_address (range start end) address) result out.new }
{
    put(FrameRange::new(start, end).offset_of_address(address), out)
}

// out: found, address.
#[unsafe(no_mangle)]
pub extern "C" fn likhmout_address_at_offset(
    start: u64,
    end: u64,
    offset: u64,
    out: &mut [u64; 2],
) -> u64
    ensures { Written number_words (address_at_offset (range start end) offset) result out.new }
{
    put(FrameRange::new(start, end).address_at_offset(offset), out)
}

// out: found, start, end.
#[unsafe(no_mangle)]
pub extern "C" fn likhmout_merge(
    start: u64,
    end: u64,
    other_start: u64,
    other_end: u64,
    out: &mut [u64; 3],
) -> u64
    ensures { Written range_words (merge (range start end) (range other_start other_end)) result out.new }
{
    put(
        FrameRange::new(start, end).merge(FrameRange::new(other_start, other_end)),
        out,
    )
}

// out: found, then before, middle and after, each as start, end.
#[unsafe(no_mangle)]
pub extern "C" fn likhmout_split_range(
    start: u64,
    end: u64,
    extract_start: u64,
    extract_end: u64,
    out: &mut [u64; 7],
) -> u64
    ensures { Written split_words (split_range (range start end) (range extract_start extract_end)) result out.new }
{
    put(
        FrameRange::new(start, end).split_range(FrameRange::new(extract_start, extract_end)),
        out,
    )
}

// out: found, then first and second half, each as start, end.
#[unsafe(no_mangle)]
pub extern "C" fn likhmout_split_at(start: u64, end: u64, frame: u64, out: &mut [u64; 5]) -> u64
    ensures { Written halves_words (split_at (range start end) frame) result out.new }
{
    put(FrameRange::new(start, end).split_at(frame), out)
}
