//! Judging a document, in time of the processor.
use crate::failure::Failure;
use crate::times::{Stopwatch, median_of};
use std::alloc::Global;
use std::rt::CpuClock;
use std::time::Duration;
use validation::{
    DefaultScalarValue, Definition, SchemaType, ValidatorContext, visit_dialect_rules,
};

/// Judges the document by all rules of the schema's dialect so often, and returns the median of the times in
/// nanoseconds, or `None` for no times.
///
/// # Errors
///
/// The clock failed, or out of memory.
pub fn time_walking<R: CpuClock>(
    watch: &mut Stopwatch<'_, R>,
    alloc: Global,
    schema: &SchemaType<DefaultScalarValue>,
    document: &[Definition<'_, DefaultScalarValue>],
    times: usize,
) -> Result<Option<u128>, Failure> {
    median_of(alloc, times, || time_walk(watch, alloc, schema, document))
}

fn time_walk<'a, R: CpuClock>(
    watch: &mut Stopwatch<'_, R>,
    alloc: Global,
    schema: &'a SchemaType<DefaultScalarValue>,
    document: &'a [Definition<'_, DefaultScalarValue>],
) -> Result<Duration, Failure> {
    let mut ctx = ValidatorContext::new(alloc, schema, document)?;
    watch.time_of(|| Ok(visit_dialect_rules(&mut ctx, document)?))
}
