//! Rows of which one text is cut at each length: the answer is what the part of the text says that is there, behind
//! `@` and the length from which on it holds.

pub(super) const ROWS: &str = r"
~ the catalogue of one module
%catalogue
module usbx
%each catalogue plan usbx
@0
unknown usbx
@1
Bad { line: 1 }
@8
unknown usbx
@11
usbx hard
~ the catalogue of a circle
%catalogue
module a
exports fa
needs fb
module b
exports fb
needs fa
%each catalogue plan a
@0
unknown a
@1
Bad { line: 1 }
@8
a hard
@10
Bad { line: 2 }
@18
a hard
@21
Bad { line: 3 }
@27
a hard
@30
Bad { line: 4 }
@37
a hard
@39
Bad { line: 5 }
@47
a hard
@48
b hard
a hard
@50
Bad { line: 6 }
@56
b hard
a hard
@57
cycle a
~ a catalogue with softneeds
%catalogue
version 2
module a
softneeds d b
module c
softneeds a
module d
%each catalogue plan c
@0
unknown c
@1
Bad { line: 1 }
@9
unknown c
@11
Bad { line: 2 }
@18
unknown c
@20
Bad { line: 3 }
@30
unknown c
@34
Bad { line: 4 }
@41
c hard
@43
Bad { line: 5 }
@53
a soft
c hard
@55
Bad { line: 6 }
@62
d soft
a soft
c hard
~ modules.dep
%catalogue
module a
exports fa
needs fb
module b
exports fb
needs fa
%dep
kernel/a.ko: kernel/b.ko
kernel/b.ko.xz: kernel/a.ko
%each dep plan a
@0
cycle a
@1
NoColon { line: 1 }
@12
a hard
@14
unknown k
@15
unknown ke
@16
unknown ker
@17
unknown kern
@18
unknown kerne
@19
unknown kernel
@20
EmptyName { line: 1 }
@21
cycle a
@26
NoColon { line: 2 }
@40
b hard
a hard
@42
unknown k
@43
unknown ke
@44
unknown ker
@45
unknown kern
@46
unknown kerne
@47
unknown kernel
@48
EmptyName { line: 2 }
@49
cycle a
~ modules.alias
%catalogue
module usbx
%alias
alias usb:v[0-9A-F]*p?? usbx
%each alias find usb:v0pp12
@0
not found
@25
u
@26
us
@27
usb
@28
usbx
~ a blacklist line
%catalogue
module usbx
%conf
blacklist usbx
%alias
alias usb:v[0-9A-F]*p?? usbx
%each conf find usb:v0pp12
@0
usbx
@14
not found
~ an install line
%catalogue
module x
module y
param debug bool
param level int
module z
module w
%conf
options y debug=1 \
 level=3
install x /bin/true
softdep z pre: y
install z /bin/true
blacklist w \
%each conf plan x
@0
x hard
@40
install x
~ a softdep line behind options lines
%each conf plan z
@0
z hard
@65
y soft debug=1 level=3
z hard
~ options lines
%each conf plan y
@0
y hard
@11
y hard d
@12
y hard de
@13
y hard deb
@14
y hard debu
@15
y hard debug
@16
y hard debug=
@17
y hard debug=1
@22
y hard debug=1 l
@23
y hard debug=1 le
@24
y hard debug=1 lev
@25
y hard debug=1 leve
@26
y hard debug=1 level
@27
y hard debug=1 level=
@28
y hard debug=1 level=3
~ pre items of two softdep lines that name each other
%catalogue
module a
module b
%conf
softdep a pre: b
softdep b pre: a
%each conf plan a
@0
a hard
@16
b soft
a hard
~ post items of two softdep lines that name each other
%catalogue
module a
module b
%conf
softdep a post: b
softdep b post: a
%each conf plan a
@0
a hard
@17
a hard
b soft
~ a softdep line in place of softneeds
%catalogue
version 2
module a
softneeds d b
module c
softneeds a
module d
%conf
softdep c post: d
%each conf plan c
@0
d soft
a soft
c hard
@11
c hard
@17
c hard
d soft
~ a remove line of the module
%catalogue
module snd
exports snd_card_new
module snd-pcm
needs snd_card_new
param debug bool
%conf
remove snd /bin/true
%each conf remove snd
@0
snd
@12
remove snd
~ a remove line of a dependency
%each conf remove snd-pcm
@0
snd_pcm
snd
";
