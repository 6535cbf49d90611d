use crate::says::{put, say, say_text, show, tell};
use block_meta::Meta;

/// Prints what a meta has.
pub(crate) fn print_fields(rt: &HostRuntime, meta: &Meta) {
    say_text(rt, &meta.ulid.text());
    tell(rt, "from ", &meta.min_time);
    tell(rt, " to ", &meta.max_time);
    tell(rt, "\nsamples ", &meta.samples);
    tell(rt, ", series ", &meta.series);
    tell(rt, ", chunks ", &meta.chunks);
    tell(rt, "\nlevel ", &meta.level);
    tell(rt, ", resolution ", &meta.resolution);
    tell(rt, "\nsources: ", &meta.sources.len());
    say(rt, "");
    for source in meta.sources.members() {
        say_text(rt, &source.text());
    }
    tell(rt, "labels: ", &meta.labels.labels().len());
    put(rt, ", program: ");
    show(rt, &meta.source.as_str());
}
