//! One span of a ring: what a side sends on a fibre, what the side at the fibre's other end finds, what an AU-4 brings
//! over it, and how pointers come to rest after it. No rule of protection occurs here, so that the laws serve for any
//! kind of ring.
//!
//! Each function here is a law: it does nothing, and its contract is the law, which `specs/Laws.antt` states.
#![tactic(auto)]

ghost use Rattle.sdh_spans.specs.Laws.{FramesComeThrough, SidesSendSo, InletsStay, UntoldSidesFindNothing, SidesFindSo, PortsDeliver};
ghost use Rattle.sdh_spans.specs.Laws.{PortsBring, SpansTakeWords, SpansBring, CutSpansBringAis, GeneratorsRest, SpansAreSteady};

/// A frame still has its K word after every fibre that isn't cut. Over a fibre that is cut no frame comes.
pub fn frames_come_through()
    ensures { FramesComeThrough }
{}

/// The frame that a side sends has the side's K word, shows the parity of the frame before in B2, and holds what the
/// side's generators make.
pub fn sides_send_so()
    ensures { SidesSendSo }
{}

/// A side that receives at a rate still does so after it took in what arrived.
pub fn inlets_stay()
    ensures { InletsStay }
{}

/// A side that received neither a frame nor darkness has no defect and takes no K word, and its AU-4s count as AIS.
pub fn untold_sides_find_nothing()
    ensures { UntoldSidesFindNothing }
{}

/// A side fails exactly where its fibre is cut. Otherwise it finds the word and the AU-4s that were sent, and the
/// degradation that B2 shows.
pub fn sides_find_so()
    ensures { SidesFindSo }
{}

/// A port delivers what its AU-4 brings.
pub fn ports_deliver()
    ensures { PortsDeliver }
{}

/// A port that justifies nothing brings the next bytes of its stream.
pub fn ports_bring()
    ensures { PortsBring }
{}

/// An interpreter takes the pointer word that the generator at the other end of its span sent one round earlier, or
/// ones where the fibre is cut.
pub fn spans_take_words()
    ensures { SpansTakeWords }
{}

/// Where the fibre isn't cut, and neither the generator of an AU-4 nor the interpreters change, the AU-4 arrives as it
/// was sent.
pub fn spans_bring()
    ensures { SpansBring }
{}

/// Where the interpreters don't change, AIS comes over a cut fibre.
pub fn cut_spans_bring_ais()
    ensures { CutSpansBringAis }
{}

/// Where the input of a generator has one action and one pointer value from some round on, whatever its bytes are, the
/// generator is in one state from the next round on.
pub fn generators_rest()
    ensures { GeneratorsRest }
{}

/// Where the input of a generator has one action and one pointer value from some round on, then from nine rounds later
/// on the interpreter after the span changes no more, and what comes has one action and one pointer value too.
pub fn spans_are_steady()
    ensures { SpansAreSteady }
{}
