//! Plans: hard dependencies, install lines, options.

pub(super) const ROWS: &str = r"
~ an install line refuses
%catalogue
module x
module y
param debug bool
param level int
module z
module w
%conf
options y debug=1 \
 level=3
install x /bin/true
softdep z pre: y
install z /bin/true
blacklist w \
%plan x
install x
~ a module is loaded with the words of its options line
%plan y
y hard debug=1 level=3
~ a softdep line lifts an install line, and its item has options of its own
%plan z
y soft debug=1 level=3
z hard
~ a name that no module has is told in normal form
%plan no-such
unknown no_such
~ the words of the command come last
%plan y level=4
y hard debug=1 level=3 level=4
~ the words of the command are those of the module itself
%plan z level=4
y soft debug=1 level=3
z hard level=4
~ a dependency stands first, with its own options
%catalogue
module snd
exports snd_card_new
module snd-pcm
needs snd_card_new
param debug bool
%conf
options snd index=2
options snd-pcm debug
%plan snd-pcm debug=0
snd hard index=2
snd_pcm hard debug debug=0
~ a line of modules.dep stands in for needs
%catalogue
module snd
exports snd_card_new
module snd-pcm
needs snd_card_new
param debug bool
%dep
kernel/sound/snd-pcm.ko.gz:
%plan snd_pcm
snd_pcm hard
~ a shared dependency stands once
%catalogue
module a
module b
module c
module d
%dep
a.ko: b.ko c.ko b.ko
b.ko: d.ko
c.ko: d.ko
%plan a
d hard
b hard
c hard
a hard
~ an install line of a dependency refuses
%catalogue
module a
module b
module c
module d
%dep
a.ko: b.ko c.ko b.ko
b.ko: d.ko
c.ko: d.ko
%conf
install d /bin/true
install c /bin/true
%plan a
install d
~ a missing dependency comes before its install line
%catalogue
module a
%dep
a.ko: gone-1.ko
%conf
install gone_1 /bin/true
%plan a
unknown gone_1
~ a missing module comes before its install line
%plan gone-1
unknown gone_1
~ a softdep line without marks lifts an install line
%catalogue
module a
module b
module c
module d
%dep
a.ko: b.ko c.ko b.ko
b.ko: d.ko
c.ko: d.ko
%conf
install d /bin/true
softdep d c
%plan d
d hard
~ hard dependencies in a circle by modules.dep
%catalogue
module a
exports fa
needs fb
module b
exports fb
needs fa
%dep
kernel/a.ko: kernel/b.ko
kernel/b.ko.xz: kernel/a.ko
%plan a
cycle a
~ hard dependencies in a circle by symbols
%catalogue
module a
exports fa
needs fb
module b
exports fb
needs fa
%plan b
cycle b
~ an install line among lines of all kinds
%catalogue
module x
module y
%conf
options y debug=1 \
 level=3
install x /bin/true
softdep z pre: y
install z /bin/true
alias a-* snd-pcm
blacklist w \
%plan x
install x
~ a dependency that no module is
%catalogue
module a
%dep
a.ko: no-such.ko
%plan a
unknown no_such
~ a user with words, which asks for modules that are not there
%catalogue
module a
exports fa
module b
needs fa
%conf
softdep b pre: x y z
%plan b level=4
a hard
b hard level=4
";
