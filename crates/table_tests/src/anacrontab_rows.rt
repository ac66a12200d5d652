//! Lines of anacrontabs, and what is said of them.

// Jobs, and lines that say nothing.
pub const JOBS: &str = "\
¶ => 1 0-0 blank
 \t => 1 0-2 blank
# => 1 0-1 comment
  # 1 5 a x => 1 0-11 comment
 ¶\t¶#¶ => 1 0-1 blank¶2 2-3 blank¶3 4-5 comment
1 0 a x => 1 0-7 days 1 delay 0 added 0 hours 0-24 [a] [x]
9999 0 a x => 1 0-10 days 9999 delay 0 added 0 hours 0-24 [a] [x]
@daily 0 a x => 1 0-12 days 1 delay 0 added 0 hours 0-24 [a] [x]
@weekly 0 a x => 1 0-13 days 7 delay 0 added 0 hours 0-24 [a] [x]
@monthly 0 a x => 1 0-14 monthly delay 0 added 0 hours 0-24 [a] [x]
@yearly 0 a x => 1 0-13 yearly delay 0 added 0 hours 0-24 [a] [x]
@annually 0 a x => 1 0-15 yearly delay 0 added 0 hours 0-24 [a] [x]
0 0 a x => line 1: cause 16 at 0
10000 0 a x => line 1: cause 16 at 0
07 0 a x => line 1: cause 16 at 0
+1 0 a x => line 1: cause 16 at 0
-1 0 a x => line 1: cause 16 at 0
1d 0 a x => line 1: cause 16 at 0
@hourly 0 a x => line 1: cause 16 at 0
@x 0 a x => line 1: cause 16 at 0
@Daily 0 a x => line 1: cause 16 at 0
@ 0 a x => line 1: cause 16 at 0
  x => line 1: cause 16 at 2
x => line 1: cause 16 at 0
@daily => line 1: cause 10 at 6
18446744073709551617 0 a x => line 1: cause 16 at 0
é 0 a x => line 1: cause 16 at 0
1 9999 a x => 1 0-10 days 1 delay 9999 added 0 hours 0-24 [a] [x]
1 10000 a x => line 1: cause 17 at 2
1 00 a x => line 1: cause 17 at 2
1 05 a x => line 1: cause 17 at 2
1 +5 a x => line 1: cause 17 at 2
1 5m a x => line 1: cause 17 at 2
1 @daily a x => line 1: cause 17 at 2
1 => line 1: cause 10 at 1
1  => line 1: cause 10 at 2
1 5 => line 1: cause 10 at 3
1 5\t \t => line 1: cause 10 at 6
1 5 iiiiiiiiiiiiiiiiiiiiiiiiiiiiiiiiiiiiiiiiiiiiiiiiiiiiiiiiiiiiiiii x => 1 0-70 days 1 delay 5 added 0 hours 0-24 [iiiiiiiiiiiiiiiiiiiiiiiiiiiiiiiiiiiiiiiiiiiiiiiiiiiiiiiiiiiiiiii] [x]
1 5 iiiiiiiiiiiiiiiiiiiiiiiiiiiiiiiiiiiiiiiiiiiiiiiiiiiiiiiiiiiiiiiii x => line 1: cause 18 at 4
1 5 a/b x => line 1: cause 18 at 4
1 5 / x => line 1: cause 18 at 4
1 5 a/b => line 1: cause 18 at 4
1 5 a => line 1: cause 11 at 5
1 5 a   => line 1: cause 11 at 7
1 5 é# x => 1 0-9 days 1 delay 5 added 0 hours 0-24 [é#] [x]
1 5 = x => 1 0-7 days 1 delay 5 added 0 hours 0-24 [=] [x]
1 5 a=b x => 1 0-9 days 1 delay 5 added 0 hours 0-24 [a=b] [x]
1 5 a x  # y  => 1 0-13 days 1 delay 5 added 0 hours 0-24 [a] [x  # y ]
\t1\t5\ta\tx\t => 1 0-9 days 1 delay 5 added 0 hours 0-24 [a] [x\t]
1 5 a é%\\% => 1 0-11 days 1 delay 5 added 0 hours 0-24 [a] [é%\\%]
1 5 a = => 1 0-7 days 1 delay 5 added 0 hours 0-24 [a] [=]
1 5 a x¶2 6 b y => 1 0-7 days 1 delay 5 added 0 hours 0-24 [a] [x]¶2 8-15 days 2 delay 6 added 0 hours 0-24 [b] [y]
0 x a/b => line 1: cause 16 at 0
1 x a/b => line 1: cause 17 at 2
1 5 a/b => line 1: cause 18 at 4
";

// Variables, and what they set.
pub const VARIABLES: &str = "\
A= => 1 0-2 A=[]
A = b c  => 1 0-8 A=[b c]
A='b' => 1 0-5 A=[b]
A=\"b => 1 0-4 A=[\"b]
_a1=\"\" => 1 0-6 _a1=[]
CRON_TZ=Mars/Base => 1 0-17 CRON_TZ=[Mars/Base]
 A\t=\t' b '\t => 1 0-11 A=[ b ]
1A=b => line 1: cause 16 at 0
A b=c => line 1: cause 16 at 0
=b => line 1: cause 16 at 0
A => line 1: cause 16 at 0
START_HOURS_RANGE=3-22¶1 5 a x => 1 0-22 START_HOURS_RANGE=[3-22]¶2 23-30 days 1 delay 5 added 0 hours 3-22 [a] [x]
START_HOURS_RANGE=0-24¶1 5 a x => 1 0-22 START_HOURS_RANGE=[0-24]¶2 23-30 days 1 delay 5 added 0 hours 0-24 [a] [x]
START_HOURS_RANGE=\"6-7\"¶1 5 a x => 1 0-23 START_HOURS_RANGE=[6-7]¶2 24-31 days 1 delay 5 added 0 hours 6-7 [a] [x]
START_HOURS_RANGE=23-24 => 1 0-23 START_HOURS_RANGE=[23-24]
START_HOURS_RANGE=22-3 => line 1: cause 19 at 18
START_HOURS_RANGE=3-3 => line 1: cause 19 at 18
START_HOURS_RANGE=3-25 => line 1: cause 19 at 18
START_HOURS_RANGE=03-22 => line 1: cause 19 at 18
START_HOURS_RANGE=3-022 => line 1: cause 19 at 18
START_HOURS_RANGE=3 - 22 => line 1: cause 19 at 18
START_HOURS_RANGE =  => line 1: cause 19 at 20
START_HOURS_RANGE='3-' => line 1: cause 19 at 19
START_HOURS_RANGE='' => line 1: cause 19 at 19
START_HOURS_RANGE=3 => line 1: cause 19 at 18
START_HOURS_RANGE=-3 => line 1: cause 19 at 18
START_HOURS_RANGE=3-4-5 => line 1: cause 19 at 18
START_HOURS_RANGE=3-22h => line 1: cause 19 at 18
start_hours_range=x => 1 0-19 start_hours_range=[x]
START_HOURS_RANGE2=x => 1 0-20 START_HOURS_RANGE2=[x]
START_HOURS_RANGE=3-22¶START_HOURS_RANGE=4-2¶1 5 a x¶START_HOURS_RANGE=5-6¶1 5 a x => 1 0-22 START_HOURS_RANGE=[3-22]¶line 2: cause 19 at 18¶3 45-52 days 1 delay 5 added 0 hours 3-22 [a] [x]¶4 53-74 START_HOURS_RANGE=[5-6]¶5 75-82 days 1 delay 5 added 0 hours 5-6 [a] [x]
RANDOM_DELAY=45¶1 5 a x¶1 5 foobar y => 1 0-15 RANDOM_DELAY=[45]¶2 16-23 days 1 delay 5 added 38 hours 0-24 [a] [x]¶3 24-36 days 1 delay 5 added 0 hours 0-24 [foobar] [y]
RANDOM_DELAY=0¶1 5 a x => 1 0-14 RANDOM_DELAY=[0]¶2 15-22 days 1 delay 5 added 0 hours 0-24 [a] [x]
RANDOM_DELAY=9999¶1 5 a x => 1 0-17 RANDOM_DELAY=[9999]¶2 18-25 days 1 delay 5 added 1996 hours 0-24 [a] [x]
1 5 a x¶RANDOM_DELAY=45¶1 5 a x¶RANDOM_DELAY=10¶1 5 a x => 1 0-7 days 1 delay 5 added 0 hours 0-24 [a] [x]¶2 8-23 RANDOM_DELAY=[45]¶3 24-31 days 1 delay 5 added 38 hours 0-24 [a] [x]¶4 32-47 RANDOM_DELAY=[10]¶5 48-55 days 1 delay 5 added 7 hours 0-24 [a] [x]
RANDOM_DELAY=10000 => line 1: cause 20 at 13
RANDOM_DELAY=045 => line 1: cause 20 at 13
RANDOM_DELAY= => line 1: cause 20 at 13
RANDOM_DELAY= -1 => line 1: cause 20 at 14
RANDOM_DELAY='45'  => 1 0-18 RANDOM_DELAY=[45]
RANDOM_DELAY=\" 45\" => line 1: cause 20 at 14
RANDOM_DELAY=45 m => line 1: cause 20 at 13
RANDOM_DELAY=x¶1 5 a x => line 1: cause 20 at 13¶2 15-22 days 1 delay 5 added 0 hours 0-24 [a] [x]
";

// Lines that go on.
pub const JOINED: &str = "\
1 5 \\¶a x => 1 0-9 days 1 delay 5 added 0 hours 0-24 [a] [x]
1\\¶5\\¶a\\¶x¶2 6 b y => 1 0-10 days 1 delay 5 added 0 hours 0-24 [a] [x]¶5 11-18 days 2 delay 6 added 0 hours 0-24 [b] [y]
1 5 a x \\¶ y¶# z => 1 0-12 days 1 delay 5 added 0 hours 0-24 [a] [x \\¶ y]¶3 13-16 comment
1 5 a x\\¶ => 1 0-8 days 1 delay 5 added 0 hours 0-24 [a] [x\\]
1 5 a x\\ => 1 0-8 days 1 delay 5 added 0 hours 0-24 [a] [x\\]
1 5 a \\ => line 1: cause 11 at 7
1 5 \\ => line 1: cause 10 at 5
\\ => 1 0-1 blank
\\¶ => 1 0-1 blank
\\¶\\¶ => 1 0-3 blank
\\¶1 5 a x => 1 0-9 days 1 delay 5 added 0 hours 0-24 [a] [x]
\\¶¶1 5 a x => 1 0-2 blank¶3 3-10 days 1 delay 5 added 0 hours 0-24 [a] [x]
# a\\¶1 5 a x¶1 5 b y => 1 0-12 comment¶3 13-20 days 1 delay 5 added 0 hours 0-24 [b] [y]
A=b\\¶c => 1 0-6 A=[b\\¶c]
A=b\\¶¶1 5 a x => 1 0-5 A=[b]¶3 6-13 days 1 delay 5 added 0 hours 0-24 [a] [x]
A\\¶=\\¶\\¶b\\ => 1 0-10 A=[b]
A='\\¶' => 1 0-6 A=[\\¶]
RANDOM_DELAY=\\¶45¶1 5 a x => 1 0-17 RANDOM_DELAY=[45]¶3 18-25 days 1 delay 5 added 38 hours 0-24 [a] [x]
START_HOURS_RANGE=3-\\¶22 => line 1: cause 19 at 18
START_HOURS_RANGE=\\¶ => line 1: cause 19 at 19
RANDOM_DELAY=4\\¶\\¶ => 1 0-17 RANDOM_DELAY=[4]
1 5 a\\ x => 1 0-8 days 1 delay 5 added 0 hours 0-24 [a\\] [x]
1 5 a\\b x => 1 0-9 days 1 delay 5 added 0 hours 0-24 [a\\b] [x]
1 5 a x\\\\¶y => 1 0-11 days 1 delay 5 added 0 hours 0-24 [a] [x\\\\¶y]
\\a=b => line 1: cause 16 at 0
1 5 a/b\\¶ x => line 1: cause 18 at 4
0\\¶5 a x¶1 5 a => line 1: cause 16 at 0¶line 3: cause 11 at 5
\\¶  x => line 1: cause 16 at 4
1 5\\¶a\\¶¶¶7 x b y => line 1: cause 11 at 8¶4 9-9 blank¶line 5: cause 17 at 2
";
