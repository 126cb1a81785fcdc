//! Removal plans.

pub(super) const ROWS: &str = r"
~ a user comes before its dependencies
%catalogue
module snd
exports snd_card_new
module snd-pcm
needs snd_card_new
param debug bool
%remove snd-pcm
snd_pcm
snd
~ a removal takes no users
%remove snd
snd
~ a remove line refuses
%catalogue
module snd
exports snd_card_new
module snd-pcm
needs snd_card_new
param debug bool
%conf
remove snd /bin/true
remove gone x
%remove snd
remove snd
~ a remove line of a dependency has no part
%remove snd-pcm
snd_pcm
snd
~ a remove line of a missing module refuses
%remove gone
remove gone
~ a name that no module has is told in normal form
%remove no-such
unknown no_such
~ a softdep line lifts a remove line
%catalogue
module snd
exports snd_card_new
module snd-pcm
needs snd_card_new
param debug bool
%conf
remove snd /bin/true
softdep snd x
%remove snd
snd
~ install lines have no part
%catalogue
module snd
exports snd_card_new
module snd-pcm
needs snd_card_new
param debug bool
%conf
install snd /bin/true
install snd-pcm /bin/true
%remove snd-pcm
snd_pcm
snd
~ soft items have no part
%catalogue
module snd
exports snd_card_new
module snd-pcm
needs snd_card_new
param debug bool
%conf
softdep snd-pcm pre: x post: snd y
%remove snd-pcm
snd_pcm
snd
~ a circle has no removal plan
%catalogue
module a
exports fa
needs fb
module b
exports fb
needs fa
%dep
kernel/a.ko: kernel/b.ko
kernel/b.ko.xz: kernel/a.ko
%remove b
cycle b
~ a remove line of cards
%catalogue
module snd
size 114688
exports snd_card_new
module snd-pcm
size 143360
exports snd_pcm_new
needs snd_card_new
param debug bool
%conf
remove snd /bin/true
%remove snd
remove snd
~ a remove line of a card is not its user's
%remove snd-pcm
snd_pcm
snd
~ a user that asks for modules that are not there
%catalogue
module a
exports fa
module b
needs fa
%conf
softdep b pre: x y z
%remove b
b
a
";
